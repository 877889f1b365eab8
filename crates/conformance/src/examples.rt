//! Defines the limits that the tests share.
use dap_frame::FrameLimits;
use dapnorm::Limits;

/// The limits of the program.
pub const LIMITS: Limits = Limits {
    frame: FrameLimits {
        header: 4096,
        content: 16_777_216,
    },
    ids: 2_147_483_647,
    input: 4_294_967_296,
};
