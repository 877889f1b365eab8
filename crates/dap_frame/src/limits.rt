//! Limits of the parts of a frame.
ghost use Rattle.std.specs.Prelude.{◌↔◌, IsTrue};
ghost use Rattle.dap_frame.specs.Limits.{IsSound};

/// The maximum lengths of the parts of a frame, in bytes.
///
/// Calls require sound limits: `header` is from 32 to 65,536, and `content` is at most
/// 2,147,483,647. Each header part that [`write_frame`](crate::write_frame) writes has at most 30
/// bytes, and so is within the limit.
#[derive(Clone, Copy, Debug, PartialEq, Eq)]
pub struct FrameLimits {
    /// The header part, with the CR LF CR LF at its end.
    pub header: usize,
    /// The content.
    pub content: usize,
}

impl FrameLimits {
    /// Returns whether the limits are sound. Does not allocate.
    pub fn sound(&self) -> bool
        ensures { IsTrue result ↔ IsSound self.now }
    {
        32 <= self.header && self.header <= 65_536 && self.content <= 2_147_483_647
    }
}
