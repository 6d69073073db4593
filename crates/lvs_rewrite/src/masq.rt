//! Masquerade: a packet rewritten on its way to a real server and back (ipvsadm(8)).
ghost use Rattle.std.specs.Prelude.{◌≡◌, ◌≢◌, true, Ok, length};
ghost use Rattle.lvs_model.specs.Reading.{read};
ghost use Rattle.lvs_model.specs.Rewriting.{has_ports, masq_in_bytes, masq_out_bytes};
ghost use Rattle.lvs_rewrite.specs.Validity.{has_valid_header, has_valid_part, udp_field};

use crate::sums::{Endpoint, update_header_sum, update_part_sum};
use lvs_headers::numbers::{put_addr, put_word};
use lvs_headers::{ipv4, tcp};
use lvs_types::{Addr, Head};

/// Rewrites a client's packet for a real server: the destination becomes the server's address and
/// port, and the checksums are updated (RFC 1624). `head` is the reading of `bytes`, which are the
/// packet and no more, of unfragmented TCP or UDP.
pub fn masq_in(bytes: &mut [u8], head: &Head, daddr: Addr, dport: u16)
    requires read { read bytes.old ≡ Ok head.now }
    requires whole { head.now.total ≡ length bytes.old }
    requires ports { has_ports head.now ≡ true }
    ensures bytes { bytes.new ≡ masq_in_bytes head.now bytes.old daddr dport }
    ensures header { has_valid_header bytes.new ≡ true }
    ensures tcp { head.now.code ≡ 6 → has_valid_part bytes.old ≡ true → has_valid_part bytes.new ≡ true }
    ensures udp { head.now.code ≡ 17 → udp_field bytes.old ≢ 0 → has_valid_part bytes.old ≡ true → has_valid_part bytes.new ≡ true }
    ensures unsummed { head.now.code ≡ 17 → udp_field bytes.old ≡ 0 → udp_field bytes.new ≡ 0 }
    ensures summed { head.now.code ≡ 17 → udp_field bytes.old ≢ 0 → udp_field bytes.new ≢ 0 }
{
    put_addr(bytes, ipv4::DESTINATION, daddr);
    let port = usize::from(head.header_len) + tcp::DESTINATION_PORT;
    put_word(bytes, port, dport);
    update_header_sum(bytes, head.dst, daddr);
    let old = Endpoint {
        addr: head.dst,
        port: head.dport,
    };
    let new = Endpoint {
        addr: daddr,
        port: dport,
    };
    update_part_sum(bytes, head, old, new);
}

/// Rewrites a real server's packet for the client: the source becomes the service's address and
/// port, and the checksums are updated (RFC 1624). `head` is the reading of `bytes`, which are the
/// packet and no more, of unfragmented TCP or UDP.
pub fn masq_out(bytes: &mut [u8], head: &Head, vaddr: Addr, vport: u16)
    requires read { read bytes.old ≡ Ok head.now }
    requires whole { head.now.total ≡ length bytes.old }
    requires ports { has_ports head.now ≡ true }
    ensures bytes { bytes.new ≡ masq_out_bytes head.now bytes.old vaddr vport }
    ensures header { has_valid_header bytes.new ≡ true }
    ensures tcp { head.now.code ≡ 6 → has_valid_part bytes.old ≡ true → has_valid_part bytes.new ≡ true }
    ensures udp { head.now.code ≡ 17 → udp_field bytes.old ≢ 0 → has_valid_part bytes.old ≡ true → has_valid_part bytes.new ≡ true }
    ensures unsummed { head.now.code ≡ 17 → udp_field bytes.old ≡ 0 → udp_field bytes.new ≡ 0 }
    ensures summed { head.now.code ≡ 17 → udp_field bytes.old ≢ 0 → udp_field bytes.new ≢ 0 }
{
    put_addr(bytes, ipv4::SOURCE, vaddr);
    let port = usize::from(head.header_len) + tcp::SOURCE_PORT;
    put_word(bytes, port, vport);
    update_header_sum(bytes, head.src, vaddr);
    let old = Endpoint {
        addr: head.src,
        port: head.sport,
    };
    let new = Endpoint {
        addr: vaddr,
        port: vport,
    };
    update_part_sum(bytes, head, old, new);
}
