//! Numbers in bytes, the high byte first (RFC 791, appendix B).
ghost use Rattle.std.specs.Prelude.{◌≡◌, ◌+◌, ◌≤◌, length};
ghost use Rattle.lvs_model.specs.Fields.{word_at, addr_at, word_bytes, addr_bytes};
ghost use Rattle.lvs_model.specs.Rewriting.{with_word, with_number};

use byteorder::{BigEndian, ByteOrder};
use lvs_types::Addr;

/// The number of the two bytes at a place.
pub fn word_at(bytes: &[u8], at: usize) -> u16
    requires { at + 2 ≤ length bytes.now }
    ensures { result ≡ word_at bytes.now at }
{
    BigEndian::read_u16(&bytes[at..])
}

/// The address of the four bytes at a place.
pub fn addr_at(bytes: &[u8], at: usize) -> Addr
    requires { at + 4 ≤ length bytes.now }
    ensures { result ≡ addr_at bytes.now at }
{
    Addr {
        number: BigEndian::read_u32(&bytes[at..]),
    }
}

/// A number as two bytes.
pub fn word_bytes(number: u16) -> [u8; 2]
    ensures { result ≡ word_bytes number }
{
    number.to_be_bytes()
}

/// An address as four bytes.
pub fn addr_bytes(addr: Addr) -> [u8; 4]
    ensures { result ≡ addr_bytes addr }
{
    addr.number.to_be_bytes()
}

/// Puts a number at a place, as two bytes.
pub fn put_word(bytes: &mut [u8], at: usize, number: u16)
    requires { at + 2 ≤ length bytes.old }
    ensures { bytes.new ≡ with_word at number bytes.old }
{
    bytes[at..at + 2].copy_from_slice(&word_bytes(number));
}

/// Puts an address at a place, as four bytes.
pub fn put_addr(bytes: &mut [u8], at: usize, addr: Addr)
    requires { at + 4 ≤ length bytes.old }
    ensures { bytes.new ≡ with_number at addr.number bytes.old }
{
    bytes[at..at + 4].copy_from_slice(&addr_bytes(addr));
}
