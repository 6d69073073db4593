//! Checksums updated for an address and a port that changed (RFC 1624).
ghost use Rattle.std.specs.Prelude.{◌≡◌, ◌==◌, ◌+◌, ◌≤◌, length};
ghost use Rattle.lvs_model.specs.Rewriting.{checksum_place, moved_sum, part_sum, udp_sum, with_header_sum, with_part_sum};

use lvs_headers::numbers::{put_word, word_at};
use lvs_headers::{ipv4, tcp, udp};
use lvs_sum::{update16, update32};
use lvs_types::{Addr, Head};

/// An address and a port.
#[derive(Clone, Copy)]
pub(crate) struct Endpoint {
    pub addr: Addr,
    pub port: u16,
}

/// Updates the IP header's checksum for an address that changed.
pub(crate) fn update_header_sum(bytes: &mut [u8], old: Addr, new: Addr)
    requires { 12 ≤ length bytes.old }
    ensures { bytes.new ≡ with_header_sum old new bytes.old }
{
    let sum = update32(
        word_at(bytes, ipv4::HEADER_CHECKSUM),
        old.number,
        new.number,
    );
    put_word(bytes, ipv4::HEADER_CHECKSUM, sum);
}

/// Updates the TCP or UDP checksum for an address and a port that changed.
pub(crate) fn update_part_sum(bytes: &mut [u8], head: &Head, old: Endpoint, new: Endpoint)
    requires { checksum_place head.now + 2 ≤ length bytes.old }
    ensures { bytes.new ≡ with_part_sum head.now old.addr new.addr old.port new.port bytes.old }
{
    let place = checksum_place(head);
    let field = word_at(bytes, place);
    let sum = part_sum(head.code == ipv4::TCP, field, moved_sum(field, old, new));
    put_word(bytes, place, sum);
}

/// Where the TCP or UDP checksum stands.
fn checksum_place(head: &Head) -> usize
    ensures { result ≡ checksum_place head.now }
{
    let place = if head.code == ipv4::TCP {
        tcp::CHECKSUM
    } else {
        udp::CHECKSUM
    };
    usize::from(head.header_len) + place
}

/// A checksum after an address and a port that it covers have changed.
fn moved_sum(sum: u16, old: Endpoint, new: Endpoint) -> u16
    ensures { result ≡ moved_sum old.addr new.addr old.port new.port sum }
{
    update16(
        update32(sum, old.addr.number, new.addr.number),
        old.port,
        new.port,
    )
}

/// What the checksum field of a TCP packet becomes, or else of a UDP packet.
fn part_sum(is_tcp: bool, field: u16, updated: u16) -> u16
    ensures { result ≡ part_sum is_tcp field updated }
{
    if is_tcp {
        updated
    } else {
        udp_sum(field, updated)
    }
}

/// What a UDP checksum field becomes: 0 says that there is none and stays, and a sum of 0 is written
/// as all ones (RFC 768).
fn udp_sum(field: u16, updated: u16) -> u16
    ensures { result ≡ udp_sum field updated }
{
    match (field, updated) {
        (0, _) => 0,
        (_, 0) => u16::MAX,
        _ => updated,
    }
}
