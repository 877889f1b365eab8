//! Laws of transcripts. Each function does nothing: a call of it gives its clauses to a proof.
ghost use Rattle.dap_transcript.specs.Laws.{EqualTranscripts, ExpectsOldest, OneRecordMore};
ghost use Rattle.dap_transcript.specs.Laws.{StartsWithHead};

/// The `request_seq` that is expected of a response is the number of the oldest open request.
pub fn expects_the_oldest_request()
    ensures { ExpectsOldest }
{}

/// One message more adds its record at the end, and changes no record before it.
pub fn one_record_more()
    ensures { OneRecordMore }
{}

/// The transcript of at least one message starts with the head of a record, so
/// [`is_transcript`](crate::is_transcript) recognises it.
pub fn starts_with_a_head()
    ensures { StartsWithHead }
{}

/// Two sessions have equal transcripts if and only if their messages are equal.
pub fn equal_transcripts()
    ensures { EqualTranscripts }
{}
