//! TCP packets of 40 bytes (RFC 791, section 3.1; RFC 9293, section 3.1).
ghost use Rattle.std.specs.Prelude.{◌≡◌, ◌++◌, IfOk};
ghost use Rattle.lvs_model.specs.Generated.{ip_header_with, ip_header, tcp_header_with, pseudo_header, tcp_sum, tcp_packet};

use lvs_headers::numbers::{addr_bytes, word_bytes};
use lvs_headers::{ipv4, tcp};
use lvs_sum::fold;
use lvs_types::{Addr, Bytes, NoMemory};
use std::alloc::Global;

/// An address and a port.
#[derive(Clone, Copy, Debug)]
pub(crate) struct Endpoint {
    pub addr: Addr,
    pub port: u16,
}

/// The byte of the control bits: SYN alone.
pub(crate) const SYN: u8 = 1 << tcp::SYN_BIT;

/// ACK alone.
pub(crate) const ACK: u8 = 1 << tcp::ACK_BIT;

/// The IP header with a given checksum.
#[rattlefmt::skip]
fn ip_header_with(sum: u16, src: Addr, dst: Addr) -> [u8; 20]
    ensures { result ≡ ip_header_with sum src dst }
{
    let [sum_high, sum_low] = word_bytes(sum);
    let [s0, s1, s2, s3] = addr_bytes(src);
    let [d0, d1, d2, d3] = addr_bytes(dst);
    [
        ipv4::FIVE_WORDS, 0, 0, 40,
        0, 1, ipv4::DONT_FRAGMENT, 0,
        64, ipv4::TCP, sum_high, sum_low,
        s0, s1, s2, s3,
        d0, d1, d2, d3,
    ]
}

/// The IP header.
fn ip_header(src: Addr, dst: Addr) -> [u8; 20]
    ensures { result ≡ ip_header src dst }
{
    ip_header_with(!fold(&ip_header_with(0, src, dst)), src, dst)
}

/// The TCP header with a given checksum.
#[rattlefmt::skip]
fn tcp_header_with(sum: u16, sport: u16, dport: u16, flags: u8) -> [u8; 20]
    ensures { result ≡ tcp_header_with sum sport dport flags }
{
    let [s0, s1] = word_bytes(sport);
    let [d0, d1] = word_bytes(dport);
    let [sum_high, sum_low] = word_bytes(sum);
    [
        s0, s1, d0, d1,
        0, 0, 0, 0,
        0, 0, 0, 0,
        tcp::FIVE_WORDS, flags, 0x20, 0,
        sum_high, sum_low, 0, 0,
    ]
}

/// What the TCP checksum covers before the header.
#[rattlefmt::skip]
fn pseudo_header(src: Addr, dst: Addr) -> [u8; 12]
    ensures { result ≡ pseudo_header src dst }
{
    let [s0, s1, s2, s3] = addr_bytes(src);
    let [d0, d1, d2, d3] = addr_bytes(dst);
    [
        s0, s1, s2, s3,
        d0, d1, d2, d3,
        0, ipv4::TCP, 0, 20,
    ]
}

/// Bytes and more bytes.
fn joined(alloc: Global, front: &[u8], back: &[u8]) -> Result<Vec<u8>, NoMemory>
    ensures { IfOk result (λ bytes. bytes.items ≡ front.now ++ back.now) }
{
    let mut bytes = Vec::with_capacity(alloc, front.len().saturating_add(back.len()))?;
    bytes.extend_from_slice(front)?;
    bytes.extend_from_slice(back)?;
    Ok(bytes)
}

/// The TCP checksum.
fn tcp_sum(alloc: Global, src: Endpoint, dst: Endpoint, flags: u8) -> Result<u16, NoMemory>
    ensures { IfOk result (λ sum. sum ≡ tcp_sum src.addr src.port dst.addr dst.port flags) }
{
    let pseudo = pseudo_header(src.addr, dst.addr);
    let header = tcp_header_with(0, src.port, dst.port, flags);
    Ok(!fold(&joined(alloc, &pseudo, &header)?))
}

/// A TCP packet with these flags and no data, both checksums right.
pub(crate) fn tcp_packet(
    alloc: Global,
    src: Endpoint,
    dst: Endpoint,
    flags: u8,
) -> Result<Bytes, NoMemory>
    ensures { IfOk result (λ bytes. bytes ≡ tcp_packet src.addr src.port dst.addr dst.port flags) }
{
    let sum = tcp_sum(alloc, src, dst, flags)?;
    let ip = ip_header(src.addr, dst.addr);
    let tcp = tcp_header_with(sum, src.port, dst.port, flags);
    Ok(Bytes::from_vec(joined(alloc, &ip, &tcp)?))
}
