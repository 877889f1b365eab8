//! Theorems on frames, which hold for all bytes, and on framers, which hold for all chunks. The
//! functions do nothing: a call of one makes its clauses available to a proof.

ghost use Rattle.dap_frame.specs.Laws.{OneFrame, NoEmptyFrame, OneFault, ShownWithin};
ghost use Rattle.dap_frame.specs.Laws.{ShownOfFormat, FaultStays, FaultNeedsNoMore, FrameNotFaulty};
ghost use Rattle.dap_frame.specs.Laws.{FrameNotOpen, OpenNotFaulty, SomeOutcome, WrittenIsFrame};
ghost use Rattle.dap_frame.specs.Laws.{SomeStream, OneStream, AnyPieces, FaultInAnyPieces};

/// Bytes start with at most one frame, and the empty byte string is not a frame.
pub fn one_frame()
    ensures one { OneFrame }
    ensures not_empty { NoEmptyFrame }
{}

/// Bytes prove at most one error, at one of the bytes, and it is neither `Cut` nor `Memory`.
pub fn one_fault()
    ensures one { OneFault }
    ensures within { ShownWithin }
    ensures of_format { ShownOfFormat }
{}

/// An error remains if more bytes follow, and does not depend on bytes after the one that proves
/// it.
pub fn fault_stays()
    ensures stays { FaultStays }
    ensures needs_no_more { FaultNeedsNoMore }
{}

/// A frame, an error and incomplete bytes exclude one another.
pub fn one_outcome()
    ensures frame_not_faulty { FrameNotFaulty }
    ensures frame_not_open { FrameNotOpen }
    ensures open_not_faulty { OpenNotFaulty }
{}

/// Every byte string starts with a frame, proves an error, or is incomplete.
pub fn some_outcome()
    ensures { SomeOutcome }
{}

/// The output of `write_frame` is a frame with the content.
pub fn written_is_frame()
    ensures { WrittenIsFrame }
{}

/// Bytes are frames with exactly one list of contents, and exactly one rest that does not start
/// with a frame.
pub fn one_stream()
    ensures some { SomeStream }
    ensures one { OneStream }
{}

/// For any chunks, calls of `Framer::feed` return the contents of the stream of the chunks, up to
/// its end or to its error.
pub fn any_pieces()
    ensures contents { AnyPieces }
    ensures fault { FaultInAnyPieces }
{}
