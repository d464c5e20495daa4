//! The lengths of frames on a queue that serves a port of an Ethernet switch.

ghost use Rattle.std.specs.Prelude.{◌≡◌, ◌≤◌};
ghost use Rattle.cpa_draft.specs.Ports.{least_port_ticks, greatest_port_ticks};

/// The greatest rate of a port in bits in a tick: at more, the shortest frame would take less than a tick.
pub const MAX_RATE: u64 = 672;

/// The greatest payload of a frame on a port, in bytes. A VLAN tag counts as 4 of them.
pub const MAX_PORT_PAYLOAD: u64 = 1500;

/// The least and the greatest ticks of a frame on a port: those of its bits on the wire, at so many bits in a tick, rounded down
/// and up (IEEE 802.3).
pub fn port_ticks(payload: u64, rate: u64) -> (u64, u64)
    requires payload { payload ≤ MAX_PORT_PAYLOAD }
    requires some_rate { 1 ≤ rate }
    requires rate { rate ≤ MAX_RATE }
    ensures { result ≡ (least_port_ticks payload rate, greatest_port_ticks payload rate) }
{
    let bits = 8 * (38 + payload.max(46));
    (bits / rate, bits.div_ceil(rate))
}
