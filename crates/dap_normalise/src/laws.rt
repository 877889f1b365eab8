//! Theorems about recordings and their normal forms, for all inputs. Each function is empty:
//! calling it makes its `ensures` clauses available to the caller's proof.
ghost use Rattle.dap_normalise.specs.Accepting.{ReadingIsBounded, RecordingHasOneOutcome};
ghost use Rattle.dap_normalise.specs.Accepting.{RecordingRefusalStays};
ghost use Rattle.dap_normalise.specs.Normalising.{HasOneNormalForm, NormalIsAccepted};
ghost use Rattle.dap_normalise.specs.Normalising.{AcceptedIsNormalised, OneNormalText};
ghost use Rattle.dap_normalise.specs.Normalising.{NormalisingIsIdempotent, EqualTextsIffSame};
ghost use Rattle.dap_normalise.specs.Normalising.{WholeTextIsNormalised};
ghost use Rattle.dap_normalise.specs.OldGoldenFiles.{OldGoldenFiles};

/// States that a recording is either accepted as exactly one list of messages, or rejected for
/// exactly one error. The error remains when more bytes follow, unless the input only ended too
/// early. This holds for both `check` and `normalise`.
pub fn recording_has_one_outcome()
    ensures outcome { RecordingHasOneOutcome }
    ensures refusal_stays { RecordingRefusalStays }
{}

/// States that an accepted recording has exactly one normal form, and therefore exactly one output.
/// The output is accepted under the same limits, its messages are a renaming of those of the
/// recording, and normalising it again does not change it.
pub fn normal_form_stands()
    ensures form { HasOneNormalForm }
    ensures accepted { NormalIsAccepted }
    ensures some_text { AcceptedIsNormalised }
    ensures one_text { OneNormalText }
    ensures still { NormalisingIsIdempotent }
{}

/// States that two accepted recordings have equal output if and only if one-to-one renamings map
/// the messages of the first, in order, to those of the second. Each kind of id has its own
/// renaming: the sequence numbers of each side, frame ids, variables references other than 0,
/// thread ids, and breakpoint ids. With `Mode::PerStop`, frame ids and variables references have a
/// renaming of their own for each stop.
pub fn equal_texts_tell()
    ensures { EqualTextsIffSame }
{}

/// States how an old golden file normalises in the mode `Whole`: one that was written by the first
/// rows of the profile, before thread ids and breakpoint ids were renamed. The result is the output
/// for its recording, if the recording is accepted by these rows and by the entire profile.
pub fn old_golden_files()
    ensures { OldGoldenFiles }
{}

/// States that a golden file written with `Mode::Whole` normalises, in any mode, to the output for
/// its recording in that mode. Both modes must accept the recording.
pub fn golden_files_of_the_whole()
    ensures { WholeTextIsNormalised }
{}

/// States how far `normalise`, `check` and `compare` have read at a record: at most 65,536 bytes
/// beyond it, or beyond the byte at which its error is detected.
pub fn reading_is_bounded()
    ensures { ReadingIsBounded }
{}
