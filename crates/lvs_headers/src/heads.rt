//! What the headers say: the IP header's part of a head, and what a TCP or UDP header adds.
ghost use Rattle.std.specs.Prelude.{◌≡◌, ◌+◌, ◌≤◌, ◌||◌, true, false, length, if◌then◌else◌};
ghost use Rattle.lvs_headers.specs.Rest.{read_rest};
ghost use Rattle.lvs_model.specs.Reading.{header_len_of, total_of, head_of, is_tcp, is_udp, is_tcp_short, is_udp_short};

use crate::fields::{forbids_fragments, header_len, is_fragment, total};
use crate::numbers::{addr_at, word_at};
use crate::{ipv4, tcp, udp};
use lvs_types::{Head, Malformed};

/// What the IP header says, its ports 0 and its flags false.
fn ip_head(bytes: &[u8]) -> Head
    requires { 20 ≤ length bytes.now }
    ensures { result ≡ record (head_of bytes.now) { sport = 0; dport = 0; syn = false; ack = false; fin = false; rst = false } }
{
    Head {
        header_len: header_len(bytes),
        total: total(bytes),
        code: bytes[ipv4::PROTOCOL],
        tos: bytes[ipv4::TYPE_OF_SERVICE],
        id: word_at(bytes, ipv4::IDENTIFICATION),
        dont_fragment: forbids_fragments(bytes),
        fragment: is_fragment(bytes),
        ttl: bytes[ipv4::TIME_TO_LIVE],
        src: addr_at(bytes, ipv4::SOURCE),
        dst: addr_at(bytes, ipv4::DESTINATION),
        sport: 0,
        dport: 0,
        syn: false,
        ack: false,
        fin: false,
        rst: false,
    }
}

/// The same with the ports, which stand at the same places in TCP and UDP.
fn head_with_ports(bytes: &[u8]) -> Head
    requires long { 20 ≤ length bytes.now }
    requires fits { header_len_of bytes.now + 4 ≤ length bytes.now }
    requires read { is_tcp bytes.now || is_udp bytes.now ≡ true }
    ensures { result ≡ record (head_of bytes.now) { syn = false; ack = false; fin = false; rst = false } }
{
    let at = usize::from(header_len(bytes));
    Head {
        sport: word_at(bytes, at + tcp::SOURCE_PORT),
        dport: word_at(bytes, at + tcp::DESTINATION_PORT),
        ..ip_head(bytes)
    }
}

/// The same with the flags of a TCP header.
fn head_with_flags(bytes: &[u8]) -> Head
    requires long { 20 ≤ length bytes.now }
    requires fits { header_len_of bytes.now + 14 ≤ length bytes.now }
    requires tcp { is_tcp bytes.now ≡ true }
    ensures { result ≡ head_of bytes.now }
{
    let flags = bytes[usize::from(header_len(bytes)) + tcp::CONTROL_BITS];
    Head {
        syn: (flags >> tcp::SYN_BIT) & 1 == 1,
        ack: (flags >> tcp::ACK_BIT) & 1 == 1,
        fin: (flags >> tcp::FIN_BIT) & 1 == 1,
        rst: (flags >> tcp::RST_BIT) & 1 == 1,
        ..head_with_ports(bytes)
    }
}

/// The head of a TCP packet. L4Short: fewer than 20 bytes after the IP header, or a data offset below 5 words or past the end.
fn read_tcp(bytes: &[u8]) -> Result<Head, Malformed>
    requires long { 20 ≤ length bytes.now }
    requires whole { total_of bytes.now ≤ length bytes.now }
    requires header { header_len_of bytes.now ≤ total_of bytes.now }
    requires tcp { is_tcp bytes.now ≡ true }
    ensures { result ≡ (if is_tcp_short bytes.now then Err Malformed.L4Short else Ok (head_of bytes.now)) }
{
    let at = usize::from(header_len(bytes));
    let payload = total(bytes) - header_len(bytes);
    if payload < tcp::SHORTEST {
        return Err(Malformed::L4Short);
    }
    let data_offset = 4 * u16::from(bytes[at + tcp::DATA_OFFSET] >> 4);
    if data_offset < tcp::SHORTEST || payload < data_offset {
        return Err(Malformed::L4Short);
    }
    Ok(head_with_flags(bytes))
}

/// The head of a UDP packet. L4Short: fewer than 8 bytes after the IP header.
fn read_udp(bytes: &[u8]) -> Result<Head, Malformed>
    requires long { 20 ≤ length bytes.now }
    requires whole { total_of bytes.now ≤ length bytes.now }
    requires header { header_len_of bytes.now ≤ total_of bytes.now }
    requires udp { is_udp bytes.now ≡ true }
    ensures { result ≡ (if is_udp_short bytes.now then Err Malformed.L4Short else Ok (head_of bytes.now)) }
{
    if total(bytes) - header_len(bytes) < udp::HEADER {
        return Err(Malformed::L4Short);
    }
    Ok(head_with_ports(bytes))
}

/// The head of a packet whose IP header is right. Of a fragment and of other protocols nothing after that header is read.
pub(crate) fn read_transport(bytes: &[u8]) -> Result<Head, Malformed>
    requires long { 20 ≤ length bytes.now }
    requires whole { total_of bytes.now ≤ length bytes.now }
    requires header { header_len_of bytes.now ≤ total_of bytes.now }
    ensures { result ≡ read_rest bytes.now }
{
    if is_fragment(bytes) {
        return Ok(ip_head(bytes));
    }
    match bytes[ipv4::PROTOCOL] {
        ipv4::TCP => read_tcp(bytes),
        ipv4::UDP => read_udp(bytes),
        _ => Ok(ip_head(bytes)),
    }
}
