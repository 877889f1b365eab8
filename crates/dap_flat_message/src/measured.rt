//! Messages whose canonical contents are counted without being written.
ghost use Rattle.dap_tree.specs.{Ids.with_ids, Json.text_of};
ghost use Rattle.dap_flat.specs.Lengths.{IsLengthWithin};

use dap_message::AnyMessage;

/// A message that knows the length of its canonical content.
pub trait Measured: AnyMessage {
    /// Returns the length of the canonical content in which the i-th id has the i-th number, or
    /// `None` if it is above the limit. It is the length of what
    /// [`write_with_ids`](AnyMessage::write_with_ids) appends. Does not allocate.
    fn length_with_ids(&self, numbers: &[i64], limit: usize) -> Option<usize>
        ensures { IsLengthWithin limit (text_of (with_ids (Self.sent self.now).doc numbers.now))
            result };
}
