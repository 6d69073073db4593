//! The lengths and the flags in the IP header.
ghost use Rattle.std.specs.Prelude.{◌≡◌, ◌≤◌, length};
ghost use Rattle.lvs_model.specs.Reading.{header_len_of, total_of, dont_fragment, is_fragment as spec_is_fragment};

use crate::ipv4;
use crate::numbers::word_at;

/// The length of the IP header in bytes: four times IHL.
pub(crate) fn header_len(bytes: &[u8]) -> u16
    requires { 20 ≤ length bytes.now }
    ensures { result ≡ header_len_of bytes.now }
{
    4 * u16::from(bytes[ipv4::VERSION_AND_IHL] & 0x0f)
}

/// The length of the packet in bytes.
pub(crate) fn total(bytes: &[u8]) -> u16
    requires { 20 ≤ length bytes.now }
    ensures { result ≡ total_of bytes.now }
{
    word_at(bytes, ipv4::TOTAL_LENGTH)
}

/// Whether the packet must not be cut into fragments.
pub(crate) fn forbids_fragments(bytes: &[u8]) -> bool
    requires { 20 ≤ length bytes.now }
    ensures { result ≡ dont_fragment bytes.now }
{
    (word_at(bytes, ipv4::FLAGS_AND_OFFSET) >> ipv4::DONT_FRAGMENT_BIT) & 1 == 1
}

/// Whether it is a fragment: more follow, or its offset isn't 0.
pub(crate) fn is_fragment(bytes: &[u8]) -> bool
    requires { 20 ≤ length bytes.now }
    ensures { result ≡ spec_is_fragment bytes.now }
{
    word_at(bytes, ipv4::FLAGS_AND_OFFSET) & (ipv4::MORE_FRAGMENTS | ipv4::FRAGMENT_OFFSET) != 0
}
