//! The bytes `>` and `<` that represent the two sides.
ghost use Rattle.std.specs.Prelude.{◌≡◌, MatchOption};
ghost use Rattle.dap_recording.specs.Marker.{marker, IsNoMarker};

use dap_tree::Side;

/// Returns the byte that the records and pieces of a side start with.
pub fn marker_of(side: Side) -> u8
    ensures { result ≡ marker side }
{
    match side {
        Side::Client => b'>',
        Side::Adapter => b'<',
    }
}

/// Returns the side whose records and pieces start with this byte.
pub fn side_of(byte: u8) -> Option<Side>
    ensures { MatchOption result (IsNoMarker byte) (λ side. byte ≡ marker side) }
{
    match byte {
        b'>' => Some(Side::Client),
        b'<' => Some(Side::Adapter),
        _ => None,
    }
}
