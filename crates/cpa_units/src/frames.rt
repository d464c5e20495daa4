//! Lengths of CAN frames.

ghost use Rattle.std.specs.Prelude.{◌≡◌, ◌≤◌};
ghost use Rattle.cpa_units.specs.declared.limits.TheConstants.{MAX_PAYLOAD};
ghost use Rattle.cpa_units.specs.Frames.{least_frame_bits, greatest_frame_bits};

/// The least and the greatest length of a frame in bits, with the three bits between frames. The payload is in bytes,
/// and an extended frame has an identifier of 29 bits in place of 11.
pub fn frame_bits(payload: u64, extended: bool) -> (u64, u64)
    requires { payload ≤ MAX_PAYLOAD }
    ensures { result ≡ (least_frame_bits payload extended, greatest_frame_bits payload extended) }
{
    if extended {
        (67 + 8 * payload, 80 + 10 * payload)
    } else {
        (47 + 8 * payload, 55 + 10 * payload)
    }
}
