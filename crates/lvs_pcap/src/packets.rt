//! The packet of a frame, and where it comes from.
ghost use Rattle.std.specs.Prelude.{◌≡◌, ◌≤◌, length, drop, IfSome};
ghost use Rattle.std.specs.Option.{option_map};
ghost use Rattle.lvs_model.specs.CaptureFiles.{ip_of as spec_ip_of, is_ipv4 as spec_is_ipv4};
ghost use Rattle.lvs_model.specs.Fields.{addr_at};
ghost use Rattle.lvs_model.specs.Captured.{agree_in as spec_agree_in, is_outgoing as spec_is_outgoing, packet_line as spec_packet_line};

use crate::places::{ETHERNET, RAW_IP};
use byteorder::{BigEndian, ByteOrder};
use lvs_types::{Addr, Bytes, Frame, ScriptLine};

/// The bytes of an Ethernet header, and the place of its type (RFC 894).
const ETHERNET_HEADER: usize = 14;

const ETHERNET_TYPE: usize = 12;

const IPV4: u16 = 0x0800;

/// The bytes of an IP header without options, and the place of its source (RFC 791, section 3.1).
const IP_HEADER: usize = 20;

const SOURCE: usize = 12;

fn is_ipv4(bytes: &[u8]) -> bool
    ensures { result ≡ spec_is_ipv4 bytes.now }
{
    bytes.len() >= ETHERNET_HEADER && BigEndian::read_u16(&bytes[ETHERNET_TYPE..]) == IPV4
}

/// Where the IP bytes of a frame begin, by the link type of its capture.
fn place_of_ip(link: u32, frame: &Frame) -> Option<usize>
    ensures place { option_map (λ place. drop place frame.now.bytes) result ≡ spec_ip_of link frame.now }
    ensures there { IfSome result (λ place. place ≤ length frame.now.bytes) }
{
    if link == RAW_IP {
        Some(0)
    } else if link == ETHERNET && is_ipv4(frame.bytes.as_slice()) {
        Some(ETHERNET_HEADER)
    } else {
        None
    }
}

/// The IP bytes of a frame, by the link type of its capture: of raw IP (101) all of them, of
/// Ethernet (1) those from 14 on. There are none exactly where the link is neither, or is Ethernet
/// and the frame has fewer than 14 bytes or a type other than 08 00. It takes no memory.
pub fn ip_of(link: u32, frame: &Frame) -> Option<&[u8]>
    ensures { option_map (λ packet. packet.now) result ≡ spec_ip_of link frame.now }
{
    let place = place_of_ip(link, frame)?;
    Some(&frame.bytes.as_slice()[place..])
}

/// The bytes from a place on, in the memory of all of them.
fn bytes_from(bytes: Bytes, place: usize) -> Bytes
    requires { place ≤ length bytes }
    ensures { result ≡ drop place bytes }
{
    let mut bytes = bytes.into_vec();
    let rest = bytes.len() - place;
    bytes.rotate_left(place);
    bytes.truncate(rest);
    Bytes::from_vec(bytes)
}

/// The IP bytes of a frame as those of `ip_of`, moved out of it.
pub(crate) fn into_ip(link: u32, frame: Frame) -> Option<Bytes>
    ensures { result ≡ spec_ip_of link frame }
{
    let place = place_of_ip(link, &frame)?;
    Some(bytes_from(frame.bytes, place))
}

/// How the frames of a capture become lines of a script.
#[derive(Clone, Copy)]
pub(crate) struct FrameRule {
    /// The link type of the capture.
    pub(crate) link: u32,
    /// The network of the servers, and how many of its first bits count, 32 at most.
    pub(crate) net: Addr,
    pub(crate) bits: u8,
    /// The seconds of which a moment is a multiple, above 0.
    pub(crate) step: u32,
}

/// Whether two addresses agree in so many first bits.
fn agree_in(bits: u8, a: Addr, b: Addr) -> bool
    requires { bits ≤ 32 }
    ensures { result ≡ spec_agree_in bits a b }
{
    let rest = 32 - u32::from(bits);
    u64::from(a.number) >> rest == u64::from(b.number) >> rest
}

/// The source of a packet.
fn source(bytes: &[u8]) -> Addr
    requires { 20 ≤ length bytes.now }
    ensures { result ≡ addr_at bytes.now 12 }
{
    Addr {
        number: BigEndian::read_u32(&bytes[SOURCE..]),
    }
}

/// Whether a packet comes from the servers' network.
fn is_outgoing(rule: FrameRule, bytes: &[u8]) -> bool
    requires { rule.bits ≤ 32 }
    ensures { result ≡ spec_is_outgoing rule.net rule.bits bytes.now }
{
    bytes.len() >= IP_HEADER && agree_in(rule.bits, source(bytes), rule.net)
}

/// The line of a packet.
pub(crate) fn packet_line(rule: FrameRule, bytes: Bytes) -> ScriptLine
    requires { rule.bits ≤ 32 }
    ensures { result ≡ spec_packet_line rule.net rule.bits bytes }
{
    if is_outgoing(rule, bytes.as_slice()) {
        ScriptLine::Outgoing(bytes)
    } else {
        ScriptLine::Incoming { mark: 0, bytes }
    }
}
