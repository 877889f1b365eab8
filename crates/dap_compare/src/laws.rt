//! Theorems about two recordings, for all inputs. Each function is empty: calling it makes its
//! `ensures` clauses available to the caller's proof.
ghost use Rattle.dap_compare.specs.Verdicts.{RecordingsHaveOneVerdict, SameIffRenaming};
ghost use Rattle.dap_compare.specs.Verdicts.{SameIsCarried};

/// States that two inputs have exactly one verdict: the pairs of a renaming, the first record that
/// differs, or the first error of one of them. If both inputs are accepted, the verdict is a
/// renaming if and only if their messages are the same. This renaming maps the messages of the
/// first input to those of the second.
pub fn two_recordings_have_one_verdict()
    ensures one { RecordingsHaveOneVerdict }
    ensures same { SameIffRenaming }
    ensures carried { SameIsCarried }
{}
