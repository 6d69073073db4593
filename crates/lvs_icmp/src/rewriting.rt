//! The bytes of an error as it goes on.
ghost use Rattle.std.specs.Prelude.{◌≡◌, ◌+◌, ◌≤◌, length, IfOk};
ghost use Rattle.lvs_model.specs.IcmpErrors.{embedded_of, with_source, with_destination, embedded_from, embedded_to, with_sum, message_about, bytes_to_server, bytes_to_client};
ghost use Rattle.lvs_model.specs.Reading.{header_len_of};
ghost use Rattle.lvs_model.specs.Rewriting.{with_header_sum};

use crate::embedded::{EMBEDDED, embedded_of};
use crate::fields::header_len;
use lvs_headers::ipv4::{DESTINATION, HEADER_CHECKSUM, SOURCE};
use lvs_headers::numbers::{addr_at, put_addr, put_word, word_at};
use lvs_sum::{fold, update32};
use lvs_types::{Addr, Bytes, Entry, NoMemory};
use std::alloc::Global;

/// The place of the checksum in the message (RFC 792).
const MESSAGE_SUM: usize = 2;

/// Updates the IP header's checksum for an address that changed (RFC 1624).
fn update_header_sum(packet: &mut [u8], old: Addr, new: Addr)
    requires { 20 ≤ length packet.old }
    ensures { packet.new ≡ with_header_sum old new packet.old }
{
    let sum = update32(word_at(packet, HEADER_CHECKSUM), old.number, new.number);
    put_word(packet, HEADER_CHECKSUM, sum);
}

/// Puts another source, and updates the header's checksum.
fn put_source(packet: &mut [u8], addr: Addr)
    requires { 20 ≤ length packet.old }
    ensures { packet.new ≡ with_source addr packet.old }
{
    let old = addr_at(packet, SOURCE);
    put_addr(packet, SOURCE, addr);
    update_header_sum(packet, old, addr);
}

/// Puts another destination, and updates the header's checksum.
fn put_destination(packet: &mut [u8], addr: Addr)
    requires { 20 ≤ length packet.old }
    ensures { packet.new ≡ with_destination addr packet.old }
{
    let old = addr_at(packet, DESTINATION);
    put_addr(packet, DESTINATION, addr);
    update_header_sum(packet, old, addr);
}

/// Puts another source and source port into an embedded packet.
fn put_embedded_source(packet: &mut [u8], addr: Addr, port: u16)
    requires long { 20 ≤ length packet.old }
    requires fits { header_len_of packet.old + 8 ≤ length packet.old }
    ensures { packet.new ≡ embedded_from addr port packet.old }
{
    let at = header_len(packet);
    put_word(packet, at, port);
    put_source(packet, addr);
}

/// Puts another destination and destination port into an embedded packet.
fn put_embedded_destination(packet: &mut [u8], addr: Addr, port: u16)
    requires long { 20 ≤ length packet.old }
    requires fits { header_len_of packet.old + 8 ≤ length packet.old }
    ensures { packet.new ≡ embedded_to addr port packet.old }
{
    let at = header_len(packet) + 2;
    put_word(packet, at, port);
    put_destination(packet, addr);
}

/// Puts the checksum that makes a message right: the complement of its sum with the field as 0.
#[tactic(auto, using(crate::proofs::Messages::put_twice))]
fn put_sum(message: &mut [u8])
    requires { 4 ≤ length message.old }
    ensures { message.new ≡ with_sum message.old }
{
    put_word(message, MESSAGE_SUM, 0);
    let sum = !fold(message);
    put_word(message, MESSAGE_SUM, sum);
}

/// An IP header with another source.
fn header_from(alloc: Global, header: &[u8], addr: Addr) -> Result<Vec<u8>, NoMemory>
    requires { 20 ≤ length header.now }
    ensures { IfOk result (λ copy. copy.items ≡ with_source addr header.now) }
{
    let mut copy = header.to_vec(alloc)?;
    put_source(&mut copy, addr);
    Ok(copy)
}

/// An IP header with another destination.
fn header_to(alloc: Global, header: &[u8], addr: Addr) -> Result<Vec<u8>, NoMemory>
    requires { 20 ≤ length header.now }
    ensures { IfOk result (λ copy. copy.items ≡ with_destination addr header.now) }
{
    let mut copy = header.to_vec(alloc)?;
    put_destination(&mut copy, addr);
    Ok(copy)
}

/// An embedded packet with another source and source port.
fn embedded_from(alloc: Global, packet: &[u8], addr: Addr, port: u16) -> Result<Vec<u8>, NoMemory>
    requires long { 20 ≤ length packet.now }
    requires fits { header_len_of packet.now + 8 ≤ length packet.now }
    ensures { IfOk result (λ copy. copy.items ≡ embedded_from addr port packet.now) }
{
    let mut copy = packet.to_vec(alloc)?;
    put_embedded_source(&mut copy, addr, port);
    Ok(copy)
}

/// An embedded packet with another destination and destination port.
fn embedded_to(alloc: Global, packet: &[u8], addr: Addr, port: u16) -> Result<Vec<u8>, NoMemory>
    requires long { 20 ≤ length packet.now }
    requires fits { header_len_of packet.now + 8 ≤ length packet.now }
    ensures { IfOk result (λ copy. copy.items ≡ embedded_to addr port packet.now) }
{
    let mut copy = packet.to_vec(alloc)?;
    put_embedded_destination(&mut copy, addr, port);
    Ok(copy)
}

/// The message about another embedded packet.
fn message_about(alloc: Global, message: &[u8], embedded: &[u8]) -> Result<Vec<u8>, NoMemory>
    requires { 8 ≤ length message.now }
    ensures { IfOk result (λ about. about.items ≡ message_about message.now embedded.now) }
{
    let mut about = message[..EMBEDDED].to_vec(alloc)?;
    about.extend_from_slice(embedded)?;
    put_sum(&mut about);
    Ok(about)
}

/// An error as it goes on to the server, by its IP header and its message.
pub(crate) fn bytes_to_server(
    alloc: Global,
    entry: &Entry,
    header: &[u8],
    message: &[u8],
) -> Result<Bytes, NoMemory>
    requires header { 20 ≤ length header.now }
    requires message { 8 ≤ length message.now }
    requires long { 20 ≤ length (embedded_of message.now) }
    requires fits { header_len_of (embedded_of message.now) + 8 ≤ length (embedded_of message.now) }
    ensures { IfOk result (λ bytes. bytes ≡ bytes_to_server entry.now header.now message.now) }
{
    let embedded = embedded_from(alloc, embedded_of(message), entry.daddr, entry.dport)?;
    let about = message_about(alloc, message, &embedded)?;
    let mut bytes = header_to(alloc, header, entry.daddr)?;
    bytes.extend_from_slice(&about)?;
    Ok(Bytes::from_vec(bytes))
}

/// An error as it goes on to the client.
pub(crate) fn bytes_to_client(
    alloc: Global,
    entry: &Entry,
    header: &[u8],
    message: &[u8],
) -> Result<Bytes, NoMemory>
    requires header { 20 ≤ length header.now }
    requires message { 8 ≤ length message.now }
    requires long { 20 ≤ length (embedded_of message.now) }
    requires fits { header_len_of (embedded_of message.now) + 8 ≤ length (embedded_of message.now) }
    ensures { IfOk result (λ bytes. bytes ≡ bytes_to_client entry.now header.now message.now) }
{
    let key = entry.key;
    let embedded = embedded_to(alloc, embedded_of(message), key.vaddr, key.vport)?;
    let about = message_about(alloc, message, &embedded)?;
    let mut bytes = header_from(alloc, header, key.vaddr)?;
    bytes.extend_from_slice(&about)?;
    Ok(Bytes::from_vec(bytes))
}
