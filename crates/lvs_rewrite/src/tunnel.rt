//! The outer header of a tunnel (RFC 2003, section 3.1): an IPv4 header without options.
ghost use Rattle.std.specs.Prelude.{◌≡◌, true, ◌<◌, ◌≤◌, IfOk, OnErr, OnOk};
ghost use Rattle.lvs_sum.specs.Sums.{is_valid_header};
ghost use Rattle.lvs_model.specs.Rewriting.{flags_byte, outer_bytes, outer_with};

use lvs_headers::ipv4;
use lvs_headers::numbers::{addr_bytes, word_bytes};
use lvs_sum::fold;
use lvs_types::{Addr, Head};

/// The longest packet that the outer header leaves within 65,535 bytes.
const MAX_INNER: u16 = u16::MAX - ipv4::SHORTEST;

/// The packet would be longer than 65,535 bytes with the outer header.
#[derive(Clone, Copy, Debug, PartialEq, Eq)]
pub struct TooLong;

/// The header that goes before a packet on its way through a tunnel, from `local` to `daddr`: the
/// inner type of service, identification, don't-fragment bit and time to live, 20 bytes more, and a
/// checksum in full. TooLong where the packet has more than 65,515 bytes.
#[tactic(auto, using(crate::proofs::Outer::outer_valid))]
pub fn outer_header(head: &Head, local: Addr, daddr: Addr) -> Result<[u8; 20], TooLong>
    ensures bytes { IfOk result (λ outer. outer ≡ outer_bytes head.now local daddr) }
    ensures valid { IfOk result (λ outer. is_valid_header outer ≡ true) }
    ensures fits { OnOk result (head.now.total ≤ 65515) }
    ensures too_long { OnErr result (65515 < head.now.total) }
{
    if head.total > MAX_INNER {
        return Err(TooLong);
    }
    let unsummed = outer_with(0, head, local, daddr);
    Ok(outer_with(!fold(&unsummed), head, local, daddr))
}

/// The outer header with a given checksum.
#[rattlefmt::skip]
fn outer_with(sum: u16, head: &Head, local: Addr, daddr: Addr) -> [u8; 20]
    requires { head.now.total ≤ 65515 }
    ensures { result ≡ outer_with sum head.now local daddr }
{
    let [total_high, total_low] = word_bytes(head.total + ipv4::SHORTEST);
    let [id_high, id_low] = word_bytes(head.id);
    let flags = flags_byte(head.dont_fragment);
    let [sum_high, sum_low] = word_bytes(sum);
    let [s0, s1, s2, s3] = addr_bytes(local);
    let [d0, d1, d2, d3] = addr_bytes(daddr);
    [
        ipv4::FIVE_WORDS, head.tos, total_high, total_low,
        id_high, id_low, flags, 0,
        head.ttl, ipv4::IP_IN_IP, sum_high, sum_low,
        s0, s1, s2, s3,
        d0, d1, d2, d3,
    ]
}

/// The byte of the flags, at offset 0 (RFC 791, section 3.1).
fn flags_byte(dont_fragment: bool) -> u8
    ensures { result ≡ flags_byte dont_fragment }
{
    if dont_fragment {
        ipv4::DONT_FRAGMENT
    } else {
        0
    }
}
