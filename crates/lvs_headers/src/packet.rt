//! A packet that was read, with the parts of the bytes that it was read from.
ghost use Rattle.std.specs.Prelude.{◌≡◌, ◌≤◌, length, take, drop, MatchResult, IfOk, Ok, Err};
ghost use Rattle.lvs_headers.specs.Rest.{read_rest};
ghost use Rattle.lvs_model.specs.Reading.{read, header_len_of, total_of, whole_of, payload_of};

use crate::fields::{header_len, total};
use crate::heads::read_transport;
use crate::ipv4;
use lvs_sum::fold;
use lvs_types::{Head, Malformed};
use std::marker::Model;

/// A packet that was read: what its headers say, and parts of the bytes that it was read from.
#[derive(Debug, Drop)]
pub struct Packet<'a> {
    head: Head,
    whole: &'a [u8],
    payload: &'a [u8],
}

impl<'a> Model for Packet<'a> {
    ghost use Rattle.lvs_headers.specs.Packet.{PacketSeen};

    ghost Value = { PacketSeen };

    ghost view = { λ p. record { head = p.head; whole = p.whole.now; payload = p.payload.now } };
}

impl<'a> Packet<'a> {
    /// What the headers say.
    pub fn head(&self) -> Head
        ensures { result ≡ self.now.head }
    {
        self.head
    }

    /// The packet's bytes, up to the total length.
    pub fn whole(&self) -> &'a [u8]
        ensures { result.now ≡ self.now.whole }
    {
        self.whole
    }

    /// The bytes after the IP header, up to the total length.
    pub fn payload(&self) -> &'a [u8]
        ensures { result.now ≡ self.now.payload }
    {
        self.payload
    }
}

/// Whether the IP header is right, else the first cause: Short, Version, HeaderLength, TotalLength, HeaderSum.
fn check_header(bytes: &[u8]) -> Result<(), Malformed>
    ensures reading { MatchResult result (λ _. read bytes.now ≡ read_rest bytes.now) (λ e. read bytes.now ≡ Err e) }
    ensures long { IfOk result (λ _. 20 ≤ length bytes.now) }
    ensures header { IfOk result (λ _. header_len_of bytes.now ≤ total_of bytes.now) }
    ensures whole { IfOk result (λ _. total_of bytes.now ≤ length bytes.now) }
{
    if bytes.len() < usize::from(ipv4::SHORTEST) {
        return Err(Malformed::Short);
    }
    if bytes[ipv4::VERSION_AND_IHL] >> 4 != ipv4::VERSION {
        return Err(Malformed::Version);
    }
    let header = header_len(bytes);
    if header < ipv4::SHORTEST || bytes.len() < usize::from(header) {
        return Err(Malformed::HeaderLength);
    }
    let total = total(bytes);
    if total < header || bytes.len() < usize::from(total) {
        return Err(Malformed::TotalLength);
    }
    if fold(&bytes[..usize::from(header)]) != 0xffff {
        return Err(Malformed::HeaderSum);
    }
    Ok(())
}

/// Reads a packet (RFC 791, section 3.1; RFC 768; RFC 9293, section 3.1); bytes past its total length are cut off.
/// The causes are looked for in this order: fewer than 20 bytes are Short; another version than 4 is Version; an IHL
/// below 5 or past the end is HeaderLength; a total length below the header's or past the end is TotalLength; a wrong
/// header checksum is HeaderSum; and, in a packet that is no fragment, a TCP or UDP header that doesn't fit is L4Short.
/// The checksums of TCP and UDP aren't checked.
pub fn read_packet(bytes: &[u8]) -> Result<Packet<'_>, Malformed>
    ensures reading { MatchResult result (λ p. read bytes.now ≡ Ok p.head) (λ e. read bytes.now ≡ Err e) }
    ensures whole { IfOk result (λ p. p.whole ≡ whole_of bytes.now) }
    ensures payload { IfOk result (λ p. p.payload ≡ payload_of bytes.now) }
    ensures after { IfOk result (λ p. p.payload ≡ drop p.head.header_len p.whole) }
    ensures cut { IfOk result (λ p. p.whole ≡ take p.head.total bytes.now) }
    ensures total { IfOk result (λ p. length p.whole ≡ p.head.total) }
    ensures again { IfOk result (λ p. read p.whole ≡ Ok p.head) }
{
    check_header(bytes)?;
    let head = read_transport(bytes)?;
    let whole = &bytes[..usize::from(total(bytes))];
    Ok(Packet {
        head,
        whole,
        payload: &whole[usize::from(header_len(bytes))..],
    })
}
