//! The answer to an ICMP error: its cases in their order.
ghost use Rattle.std.specs.Prelude.{◌≡◌, ◌+◌, ◌≤◌, Some, length, take, drop, IfOk, IfSome};
ghost use Rattle.lvs_model.specs.IcmpErrors.{is_message, is_error_type, embedded_of, inward, by_side, message_answer, icmp_answer};
ghost use Rattle.lvs_model.specs.Reading.{header_len_of};
ghost use Rattle.lvs_icmp.specs.Recognised.{rewritten_of, IsRight, IsRecognised};

use crate::embedded::{EMBEDDED, embedded_of, embedded_proto, key_of_answer};
use crate::lookups::{find_forwarded, find_key, names_removed};
use crate::rewriting::{bytes_to_client, bytes_to_server};
use lvs_headers::read_packet;
use lvs_sum::fold;
use lvs_types::{Entry, Head, IcmpAnswer, Method, NoMemory, Proto, Side, Snapshot};
use std::alloc::Global;

/// The protocol's number (RFC 792).
const ICMP: u8 = 1;

/// The parts of a packet: its IP header, and the message behind it.
#[derive(Clone, Copy)]
struct Parts<'a> {
    header: &'a [u8],
    message: &'a [u8],
}

/// Whether it is an unfragmented packet of ICMP, with the 8 bytes of a message's own header.
fn is_message(head: &Head, message: &[u8]) -> bool
    ensures { result ≡ is_message head.now message.now }
{
    !head.fragment && head.code == ICMP && message.len() >= EMBEDDED
}

/// Destination Unreachable, Source Quench or Time Exceeded (RFC 792).
fn is_error_type(kind: u8) -> bool
    ensures { result ≡ is_error_type kind }
{
    kind == 3 || kind == 4 || kind == 11
}

/// To a server, where the connection is masqueraded and the server isn't removed.
fn to_server(
    alloc: Global,
    tables: &Snapshot,
    parts: Parts<'_>,
    entry: &Entry,
) -> Result<IcmpAnswer, NoMemory>
    requires header { 20 ≤ length parts.header.now }
    requires message { 8 ≤ length parts.message.now }
    requires long { 20 ≤ length (embedded_of parts.message.now) }
    requires fits { header_len_of (embedded_of parts.message.now) + 8 ≤ length (embedded_of parts.message.now) }
    ensures { IfOk result (λ a. a ≡ inward tables.entry.now.dests parts.entry.header.now parts.entry.message.now (Some entry.now)) }
{
    match entry.method {
        Method::Masq => {
            if names_removed(entry.server, tables.dests.as_slice()) {
                return Ok(IcmpAnswer::Gone);
            }
            let bytes = bytes_to_server(alloc, entry, parts.header, parts.message)?;
            Ok(IcmpAnswer::ToServer {
                to: entry.daddr,
                bytes,
            })
        }
        Method::Tunnel | Method::Direct => Ok(IcmpAnswer::Pass),
    }
}

/// An error from the client's side, about a packet of this protocol that went to the client.
fn inward(
    alloc: Global,
    tables: &Snapshot,
    parts: Parts<'_>,
    proto: Proto,
) -> Result<IcmpAnswer, NoMemory>
    requires header { 20 ≤ length parts.header.now }
    requires message { 8 ≤ length parts.message.now }
    requires long { 20 ≤ length (embedded_of parts.message.now) }
    requires fits { header_len_of (embedded_of parts.message.now) + 8 ≤ length (embedded_of parts.message.now) }
    ensures { IfOk result (λ a. a ≡ by_side tables.entry.now parts.entry.header.now parts.entry.message.now proto Side.Inward) }
{
    let key = key_of_answer(proto, embedded_of(parts.message));
    match find_key(tables.entries.as_slice(), &key) {
        Some(entry) => to_server(alloc, tables, parts, &entry),
        None => Ok(IcmpAnswer::Pass),
    }
}

/// An error from a server's side, about a packet of this protocol that went to the server.
fn outward(
    alloc: Global,
    tables: &Snapshot,
    parts: Parts<'_>,
    proto: Proto,
) -> Result<IcmpAnswer, NoMemory>
    requires header { 20 ≤ length parts.header.now }
    requires message { 8 ≤ length parts.message.now }
    requires long { 20 ≤ length (embedded_of parts.message.now) }
    requires fits { header_len_of (embedded_of parts.message.now) + 8 ≤ length (embedded_of parts.message.now) }
    ensures { IfOk result (λ a. a ≡ by_side tables.entry.now parts.entry.header.now parts.entry.message.now proto Side.Outward) }
{
    match find_forwarded(tables.entries.as_slice(), proto, parts.message) {
        Some(entry) => {
            let bytes = bytes_to_client(alloc, &entry, parts.header, parts.message)?;
            Ok(IcmpAnswer::ToClient(bytes))
        }
        None => Ok(IcmpAnswer::Pass),
    }
}

/// A packet that was read, from a side, by its IP header and what stands behind it.
fn message_answer(
    alloc: Global,
    tables: &Snapshot,
    side: Side,
    head: &Head,
    parts: Parts<'_>,
) -> Result<IcmpAnswer, NoMemory>
    requires { 20 ≤ length parts.header.now }
    ensures { IfOk result (λ a. a ≡ message_answer tables.entry.now side head.now parts.entry.header.now parts.entry.message.now) }
{
    if !is_message(head, parts.message) {
        return Ok(IcmpAnswer::Pass);
    }
    if fold(parts.message) != u16::MAX {
        return Ok(IcmpAnswer::BadSum);
    }
    if !is_error_type(parts.message[0]) {
        return Ok(IcmpAnswer::Pass);
    }
    let Some(proto) = embedded_proto(embedded_of(parts.message)) else {
        return Ok(IcmpAnswer::Pass);
    };
    match side {
        Side::Inward => inward(alloc, tables, parts, proto),
        Side::Outward => outward(alloc, tables, parts, proto),
    }
}

/// The answer to the bytes of a packet that comes from a side.
fn answer_to(
    alloc: Global,
    tables: &Snapshot,
    side: Side,
    bytes: &[u8],
) -> Result<IcmpAnswer, NoMemory>
    ensures { IfOk result (λ a. a ≡ icmp_answer tables.entry.now side bytes.now) }
{
    let packet = match read_packet(bytes) {
        Ok(packet) => packet,
        Err(cause) => return Ok(IcmpAnswer::Malformed(cause)),
    };
    let head = packet.head();
    let parts = Parts {
        header: &bytes[..usize::from(head.header_len)],
        message: packet.payload(),
    };
    message_answer(alloc, tables, side, &head, parts)
}

/// What becomes of the bytes of a packet that comes from a side, where it is an ICMP error about a
/// masqueraded connection of the tables (RFC 792; this project's profile). Malformed: the bytes are
/// no packet. Pass: it is no whole ICMP message; it is no error of type 3, 4 or 11; it hasn't the
/// header and the ports of a TCP or UDP packet; or that packet is of no masqueraded connection.
/// BadSum: the message's checksum is wrong. Gone: it comes from the client's side, and the server of
/// the connection was removed. Else the error goes on to the server or to the client, who finds in
/// it the packet that it had sent itself.
pub fn answer(
    alloc: Global,
    tables: &Snapshot,
    side: Side,
    bytes: &[u8],
) -> Result<IcmpAnswer, NoMemory>
    ensures answer { IfOk result (λ a. a ≡ icmp_answer tables.entry.now side bytes.now) }
    ensures right { IfOk result (λ a. IfSome (rewritten_of a) (λ rewritten. IsRight rewritten)) }
    ensures recognised { IfOk result (λ a. IfSome (rewritten_of a) (λ rewritten. IsRecognised tables.entry.now side bytes.now rewritten)) }
{
    answer_to(alloc, tables, side, bytes)
}
