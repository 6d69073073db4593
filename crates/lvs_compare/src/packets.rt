//! Lines of packets, good and bad.
ghost use Rattle.std.specs.Prelude.{◌≡◌, ◌≤◌, ◌<◌, length};

use crate::chance::Chance;
use crate::network::{client, client_port, destination, port, server, server_port};
use lvs_sum::fold;
use lvs_text::{put, put_hex, put_number};
use lvs_types::{Addr, NoMemory};
use std::alloc::Global;

/// The bytes of an IP header without options.
const IP_HEADER: u16 = 20;

/// The greatest number of data bytes in a datagram.
const MOST_DATA: u16 = 65_507;

const TCP_FLAGS: [u8; 12] = [2, 2, 2, 2, 2, 2, 0x10, 0x10, 0x11, 4, 0x12, 0];

/// One side of a connection.
#[derive(Clone, Copy, Debug)]
struct Side {
    addr: Addr,
    port: u16,
}

/// Appends a TCP header (RFC 9293) with a checksum of 0.
fn put_tcp(out: &mut Vec<u8>, from: Side, to: Side, flags: u8) -> Result<(), NoMemory> {
    out.extend_from_slice(&from.port.to_be_bytes())?;
    out.extend_from_slice(&to.port.to_be_bytes())?;
    out.extend_from_slice(&[0, 0, 0, 1, 0, 0, 0, 0, 0x50, flags, 0x20, 0, 0, 0, 0, 0])?;
    Ok(())
}

/// Appends a datagram (RFC 768) with so many bytes of data, and a checksum by chance: 0 is none.
fn put_udp(
    out: &mut Vec<u8>,
    chance: &mut Chance,
    from: Side,
    to: Side,
    load: u16,
) -> Result<(), NoMemory>
    requires { load ≤ 65507 }
{
    out.extend_from_slice(&from.port.to_be_bytes())?;
    out.extend_from_slice(&to.port.to_be_bytes())?;
    out.extend_from_slice(&(8 + load).to_be_bytes())?;
    let sum = if chance.once_in(2) { 0 } else { chance.byte() };
    out.extend_from_slice(&[0, sum])?;
    for _ in 0..load {
        out.push(0)?;
    }
    Ok(())
}

/// Appends an IP header (RFC 791) with a checksum of 0.
fn put_ip(out: &mut Vec<u8>, code: u8, total: u16, from: Addr, to: Addr) -> Result<(), NoMemory> {
    out.extend_from_slice(&[0x45, 0])?;
    out.extend_from_slice(&total.to_be_bytes())?;
    out.extend_from_slice(&[0, 7, 0x40, 0, 64, code, 0, 0])?;
    out.extend_from_slice(&from.number.to_be_bytes())?;
    out.extend_from_slice(&to.number.to_be_bytes())?;
    Ok(())
}

/// A byte of the packet becomes another one.
fn spoil(bytes: &mut [u8], chance: &mut Chance)
    requires { 0 < length bytes.old }
    ensures { length bytes.new ≡ length bytes.old }
{
    let place = chance.place(bytes.len());
    bytes[place] = chance.byte();
}

/// Puts the checksum into an IP header.
fn seal(bytes: &mut [u8])
    requires { 20 ≤ length bytes.old }
    ensures { length bytes.new ≡ length bytes.old }
{
    bytes[10] = 0;
    bytes[11] = 0;
    let [high, low] = (!fold(&bytes[..20])).to_be_bytes();
    bytes[10] = high;
    bytes[11] = low;
}

/// The length of a datagram's data: few bytes, and rarely so many that a tunnel's packet would be
/// too long.
fn data_len(chance: &mut Chance) -> u16
    ensures { result ≤ 65507 }
{
    if chance.once_in(800) {
        MOST_DATA - chance.below(24) as u16
    } else {
        chance.below(3) as u16
    }
}

/// A packet from one side to the other.
fn packet(alloc: Global, chance: &mut Chance, from: Side, to: Side) -> Result<Vec<u8>, NoMemory> {
    let mut bytes = Vec::new(alloc);
    if chance.once_in(3) {
        let data = data_len(chance);
        put_ip(&mut bytes, 17, IP_HEADER + 8 + data, from.addr, to.addr)?;
        put_udp(&mut bytes, chance, from, to, data)?;
    } else {
        put_ip(&mut bytes, 6, IP_HEADER + 20, from.addr, to.addr)?;
        put_tcp(&mut bytes, from, to, chance.pick(&TCP_FLAGS))?;
    }
    Ok(bytes)
}

/// The packet as it arrives: a byte may be spoilt before or behind the checksum, or the end cut off.
fn arrived(mut bytes: Vec<u8>, chance: &mut Chance) -> Vec<u8> {
    if bytes.len() < 20 {
        return bytes;
    }
    let fault = chance.below(40);
    if fault < 3 {
        spoil(&mut bytes, chance);
    }
    seal(&mut bytes);
    if fault == 3 {
        spoil(&mut bytes, chance);
    }
    if fault == 4 {
        let left = 1 + chance.place(bytes.len());
        bytes.truncate(left);
    }
    bytes
}

/// Appends a packet that arrives from a client.
pub(crate) fn put_incoming(
    alloc: Global,
    out: &mut Vec<u8>,
    chance: &mut Chance,
) -> Result<(), NoMemory> {
    let from = Side {
        addr: client(chance),
        port: client_port(chance),
    };
    let to = Side {
        addr: destination(chance),
        port: port(chance),
    };
    let bytes = packet(alloc, chance, from, to)?;
    put(out, b"in ")?;
    put_number(out, u64::from(chance.pick(&[0u32, 0, 0, 1, 2])))?;
    put(out, b" ")?;
    put_hex(out, &arrived(bytes, chance))
}

/// Appends a packet that arrives from a real server.
pub(crate) fn put_outgoing(
    alloc: Global,
    out: &mut Vec<u8>,
    chance: &mut Chance,
) -> Result<(), NoMemory> {
    let from = Side {
        addr: server(chance),
        port: server_port(chance),
    };
    let to = Side {
        addr: client(chance),
        port: client_port(chance),
    };
    let bytes = packet(alloc, chance, from, to)?;
    put(out, b"out ")?;
    put_hex(out, &arrived(bytes, chance))
}
