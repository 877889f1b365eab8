//! Theorems about typed messages, for all documents and contents. Each function is empty: calling
//! it makes its `ensures` clauses available to the caller's proof.
ghost use Rattle.dap_message.specs.Laws.{OneMessage, OneRefusal, TypedNotRefused, SomeMessage};
ghost use Rattle.dap_message.specs.Laws.{TypedSide, TypedProper, TypedSound, TypedEnveloped};
ghost use Rattle.dap_message.specs.Laws.{TypedOrdered, TypedUtf8, ContentWellFormed, TypedAgain};
ghost use Rattle.dap_message.specs.Laws.{ContentTypedAgain, OwnContentTypedAgain};
ghost use Rattle.dap_message.specs.Laws.{SkeletonIffSameButIds};
ghost use Rattle.dap_message.specs.Laws.{RenumberedTyped, RenumberedContentTyped};
ghost use Rattle.dap_message.specs.Laws.{SmallAreIdNumbers, Renumbers, MarkedByPath, OneMarked};
ghost use Rattle.dap_message.specs.Laws.{FilledFits, ProfileNumbered, FitsByPath, FaultByPath};
ghost use Rattle.dap_message.specs.Laws.{FilledOnce, ContentShown, ShownAlike, EachShown};
ghost use Rattle.dap_message.specs.Laws.{FitsFirst, MarkedInTwo, FirstTypedAgain};
ghost use Rattle.dap_message.specs.Laws.{FirstContentTypedAgain};

/// States that a content is at most one message, or is rejected for at most one reason, but not
/// both.
pub fn one_outcome()
    ensures one_message { OneMessage }
    ensures one_refusal { OneRefusal }
    ensures not_both { TypedNotRefused }
{}

/// States that every content is one of the following: a message of a given side, not JSON, JSON
/// with a number that is not an integer of 64 bits, or JSON that violates the profile.
pub fn some_outcome()
    ensures { SomeMessage }
{}

/// States the properties that every message inherits from its document. The message of a content
/// has all of them, whatever its bytes are (`content`).
pub fn typed_keeps()
    ensures side { TypedSide }
    ensures proper { TypedProper }
    ensures sound { TypedSound }
    ensures enveloped { TypedEnveloped }
    ensures ordered { TypedOrdered }
    ensures utf8 { TypedUtf8 }
    ensures content { ContentWellFormed }
{}

/// States that a message is read and typed again from its own content. This also holds after its
/// ids are replaced by any other valid numbers of their kinds: every signed 64-bit number, except 0
/// for a variables reference.
pub fn typed_again()
    ensures renumbered { RenumberedTyped }
    ensures renumbered_content { RenumberedContentTyped }
    ensures small { SmallAreIdNumbers }
    ensures document { TypedAgain }
    ensures content { ContentTypedAgain }
    ensures own_numbers { OwnContentTypedAgain }
{}

/// States that a message that was typed by only the first rows of the profile is typed again by the
/// entire profile. In addition, it then has the ids that the later rows define. This also holds if
/// its ids have other numbers.
pub fn typed_by_later_rows()
    ensures fits { FitsFirst }
    ensures marked { MarkedInTwo }
    ensures document { FirstTypedAgain }
    ensures content { FirstContentTypedAgain }
{}

/// States what a message and the same message with other numbers have in common, and which ids the
/// latter has.
pub fn renumbered_message()
    ensures skeleton_tells { SkeletonIffSameButIds }
    ensures ids { Renumbers }
{}

/// States which documents fit and which error a document has, in terms of paths and of row numbers.
pub fn broken_by_path()
    ensures numbered { ProfileNumbered }
    ensures fits { FitsByPath }
    ensures fault { FaultByPath }
{}

/// States that exactly one document has exactly the ids that the rows define.
pub fn one_marking()
    ensures marked { MarkedByPath }
    ensures one { OneMarked }
{}

/// States that filling in capabilities violates no row, and that filling them in twice is the same
/// as once.
pub fn filled_once()
    ensures fits { FilledFits }
    ensures once { FilledOnce }
{}

/// States that the views of a message contain every element of its arrays, in order. This also
/// holds if its ids have other numbers.
pub fn each_element_shown()
    ensures content { ContentShown }
    ensures renumbered { ShownAlike }
    ensures each { EachShown }
{}
