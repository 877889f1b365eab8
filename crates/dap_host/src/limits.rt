//! The limits of the program.
use dap_frame::FrameLimits;
use dap_input::Limits;

/// The limits of the program: of a header part, a content and an input in bytes, and of distinct
/// ids.
pub const LIMITS: Limits = Limits {
    frame: FrameLimits {
        header: 4096,
        content: 16_777_216,
    },
    ids: 2_147_483_647,
    input: 4_294_967_296,
};
