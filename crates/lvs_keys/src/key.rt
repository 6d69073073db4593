//! The key of a packet.
ghost use Rattle.std.specs.Prelude.{◌≡◌};
ghost use Rattle.lvs_model.specs.Packets.{key_of};

use lvs_types::{Head, Key, Proto};

/// The key of an incoming packet of TCP or UDP: its source is the client.
pub fn key_of_packet(proto: Proto, head: &Head) -> Key
    ensures { result ≡ key_of proto head.now }
{
    Key {
        proto,
        caddr: head.src,
        cport: head.sport,
        vaddr: head.dst,
        vport: head.dport,
    }
}
