//! What the rules ask of a packet's headers.
ghost use Rattle.std.specs.Prelude.{◌≡◌};
ghost use Rattle.lvs_model.specs.Packets.{is_syn_of, may_connect};

use lvs_types::{Head, Proto, Settings};

/// Whether it is TCP with SYN and without RST.
pub(crate) fn is_syn(proto: Proto, head: &Head) -> bool
    ensures { result ≡ is_syn_of proto head.now }
{
    match proto {
        Proto::Tcp => head.syn && !head.rst,
        Proto::Udp => false,
    }
}

/// Whether it may make a connection.
pub(crate) fn connects(settings: &Settings, proto: Proto, head: &Head) -> bool
    ensures { result ≡ may_connect settings.now proto head.now }
{
    match proto {
        Proto::Tcp => !head.rst && (head.syn || 0 < settings.sloppy_tcp),
        Proto::Udp => true,
    }
}
