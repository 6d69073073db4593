//! The packet that an error is about, of which the error has the IP header and the first bytes
//! behind it (RFC 792).
ghost use Rattle.std.specs.Prelude.{◌≡◌, ◌+◌, ◌≤◌, length, OnSome};
ghost use Rattle.std.specs.Bool.{OnTrue};
ghost use Rattle.lvs_model.specs.IcmpErrors.{embedded_of, has_first_bytes, embedded_proto, key_of_answer};
ghost use Rattle.lvs_model.specs.Reading.{header_len_of};
ghost use Rattle.lvs_icmp.specs.Sides.{sides_of};

use crate::fields::header_len;
use lvs_headers::ipv4::{DESTINATION, FLAGS_AND_OFFSET, FRAGMENT_OFFSET, PROTOCOL, SOURCE};
use lvs_headers::numbers::{addr_at, word_at};
use lvs_types::{Addr, Key, Proto};

/// The place of the embedded packet in a message, which is the length of the message's own header.
pub(crate) const EMBEDDED: usize = 8;

/// The shortest IP header, in bytes.
const IP_HEADER: usize = 20;

/// How many bytes behind the IP header an error has at least: those of the ports are among them.
const FIRST_BYTES: usize = 8;

/// The packet that a message is about.
pub(crate) fn embedded_of(message: &[u8]) -> &[u8]
    requires { 8 ≤ length message.now }
    ensures { result.now ≡ embedded_of message.now }
{
    &message[EMBEDDED..]
}

/// From where to where an embedded packet went.
#[derive(Clone, Copy, Drop)]
pub(crate) struct Sides {
    pub proto: Proto,
    pub src: Addr,
    pub sport: u16,
    pub dst: Addr,
    pub dport: u16,
}

/// Whether there is an IP header of version 4 with 8 bytes behind it, of a packet's first fragment.
fn has_first_bytes(packet: &[u8]) -> bool
    ensures value { result ≡ has_first_bytes packet.now }
    ensures long { OnTrue result (20 ≤ length packet.now) }
    ensures fits { OnTrue result (header_len_of packet.now + 8 ≤ length packet.now) }
{
    packet.len() >= IP_HEADER
        && packet[0] >> 4 == 4
        && header_len(packet) >= IP_HEADER
        && packet.len() >= header_len(packet) + FIRST_BYTES
        && word_at(packet, FLAGS_AND_OFFSET) & FRAGMENT_OFFSET == 0
}

/// The protocol of the packet, where it is TCP or UDP and its ports can be read.
pub(crate) fn embedded_proto(packet: &[u8]) -> Option<Proto>
    ensures value { result ≡ embedded_proto packet.now }
    ensures long { OnSome result (20 ≤ length packet.now) }
    ensures fits { OnSome result (header_len_of packet.now + 8 ≤ length packet.now) }
{
    if has_first_bytes(packet) {
        Proto::of_code(packet[PROTOCOL])
    } else {
        None
    }
}

/// From where to where the packet went.
pub(crate) fn sides_of(proto: Proto, packet: &[u8]) -> Sides
    requires long { 20 ≤ length packet.now }
    requires fits { header_len_of packet.now + 8 ≤ length packet.now }
    ensures { result ≡ sides_of proto packet.now }
{
    let ports = header_len(packet);
    Sides {
        proto,
        src: addr_at(packet, SOURCE),
        sport: word_at(packet, ports),
        dst: addr_at(packet, DESTINATION),
        dport: word_at(packet, ports + 2),
    }
}

/// The key of the connection where the packet went to the client: its source is the virtual side.
pub(crate) fn key_of_answer(proto: Proto, packet: &[u8]) -> Key
    requires long { 20 ≤ length packet.now }
    requires fits { header_len_of packet.now + 8 ≤ length packet.now }
    ensures { result ≡ key_of_answer proto packet.now }
{
    let sides = sides_of(proto, packet);
    Key {
        proto,
        caddr: sides.dst,
        cport: sides.dport,
        vaddr: sides.src,
        vport: sides.sport,
    }
}
