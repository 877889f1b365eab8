//! Theorems on recordings and traces, which hold for all bytes, and on the readers and the
//! recorder, which hold for all chunks. The functions do nothing: a call of one makes its clauses
//! available to a proof.

ghost use Rattle.dap_recording.specs.Laws.{OneRecord, NoEmptyRecord, OneCause, ShownWithin};
ghost use Rattle.dap_recording.specs.Laws.{ShownOfFormat, ShownMore, ShownFront, ShownLater};
ghost use Rattle.dap_recording.specs.Laws.{RecordNotFaulty, RecordNotOpen, OpenNotFaulty};
ghost use Rattle.dap_recording.specs.Laws.{SomeOutcome, OpenNone, WrittenIsRecord};
ghost use Rattle.dap_recording.specs.Laws.{WrittenIsRecording, EmptyRecording, OneRecording};
ghost use Rattle.dap_recording.specs.Laws.{SomeRecordStream, OneRecordStream};
ghost use Rattle.dap_recording.specs.Laws.{RepresentedIsIncomplete};
ghost use Rattle.dap_recording.specs.Laws.{AnyRecordPieces, FaultInAnyRecordPieces, OnePiece};
ghost use Rattle.dap_recording.specs.Laws.{NoEmptyPiece, OneTraceCause, TraceShownWithin};
ghost use Rattle.dap_recording.specs.Laws.{TraceShownMore, TraceShownFront, TraceShownLater};
ghost use Rattle.dap_recording.specs.Laws.{PieceNotFaulty, PieceNotOpen, OpenPieceNotFaulty};
ghost use Rattle.dap_recording.specs.Laws.{SomeTraceOutcome, RepresentedPieceIsIncomplete};
ghost use Rattle.dap_recording.specs.Laws.{OneRecorded};
ghost use Rattle.dap_recording.specs.Laws.{AnyTracePieces, AnyTraceInputs, FaultInAnyTraceInputs};
ghost use Rattle.dap_recording.specs.Laws.{SomePieceStream, OnePieceStream};

/// Bytes start with at most one record, and the empty byte string is not a record.
pub fn one_record()
    ensures one { OneRecord }
    ensures no_empty { NoEmptyRecord }
{}

/// Bytes prove at most one error, at one of the bytes, and it is neither `Cut` nor `Memory`.
pub fn one_cause()
    ensures one { OneCause }
    ensures within { ShownWithin }
    ensures of_format { ShownOfFormat }
{}

/// An error remains if more bytes follow. It does not depend on bytes after the one that proves it,
/// and is not proved by bytes that were incomplete before.
pub fn fault_stays()
    ensures more { ShownMore }
    ensures front { ShownFront }
    ensures later { ShownLater }
{}

/// A record, an error and incomplete bytes exclude one another.
pub fn one_outcome()
    ensures record_not_faulty { RecordNotFaulty }
    ensures record_not_open { RecordNotOpen }
    ensures open_not_faulty { OpenNotFaulty }
{}

/// Every byte string starts with a record, proves an error, or is incomplete. The empty byte string
/// is incomplete.
pub fn some_outcome()
    ensures some { SomeOutcome }
    ensures open_none { OpenNone }
{}

/// The output of `write_record` is a record of the message. The output for several messages is a
/// recording of them.
pub fn written_is_record()
    ensures one { WrittenIsRecord }
    ensures all { WrittenIsRecording }
{}

/// Bytes are a recording of at most one list of messages; the empty byte string is one of no
/// messages. All bytes are records of exactly one list of messages, and exactly one rest that does
/// not start with a record.
pub fn one_recording()
    ensures empty { EmptyRecording }
    ensures one { OneRecording }
    ensures some_stream { SomeRecordStream }
    ensures one_stream { OneRecordStream }
{}

/// For any chunks, calls of `RecordReader::feed` return the records of the joined chunks, up to
/// their end or to their error. The bytes that a reader represents are incomplete.
pub fn any_record_pieces()
    ensures represented_is_incomplete { RepresentedIsIncomplete }
    ensures records { AnyRecordPieces }
    ensures fault { FaultInAnyRecordPieces }
{}

/// Bytes start with at most one piece of a trace, and the empty byte string is not a piece.
pub fn one_piece()
    ensures one { OnePiece }
    ensures no_empty { NoEmptyPiece }
{}

/// Bytes prove at most one error of a trace, at one of the bytes. It remains if more bytes follow.
/// It does not depend on bytes after the one that proves it, and is not proved by bytes that were
/// incomplete before.
pub fn one_trace_cause()
    ensures one { OneTraceCause }
    ensures within { TraceShownWithin }
    ensures more { TraceShownMore }
    ensures front { TraceShownFront }
    ensures later { TraceShownLater }
{}

/// Every byte string does exactly one of these: it starts with a piece, proves an error of a trace,
/// or is incomplete.
pub fn one_trace_outcome()
    ensures some { SomeTraceOutcome }
    ensures piece_not_faulty { PieceNotFaulty }
    ensures piece_not_open { PieceNotOpen }
    ensures open_not_faulty { OpenPieceNotFaulty }
    ensures represented_is_incomplete { RepresentedPieceIsIncomplete }
{}

/// For any pieces of a trace, calls of `Recorder::piece` record the frames of both sides in the
/// order of the bytes that end them. There is only one such order.
pub fn any_trace_pieces()
    ensures one { OneRecorded }
    ensures recorded { AnyTracePieces }
{}

/// For any inputs, calls of `TraceReader::feed` return the runs of the joined inputs, up to their
/// end or to their error. The runs of each piece, joined, are its raw bytes.
pub fn any_trace_inputs()
    ensures runs { AnyTraceInputs }
    ensures fault { FaultInAnyTraceInputs }
{}

/// Bytes are exactly one list of pieces, and exactly one rest that does not start with a piece.
pub fn one_piece_stream()
    ensures some { SomePieceStream }
    ensures one { OnePieceStream }
{}
