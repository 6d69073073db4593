//! Numbers in bytes, the high byte first.
ghost use Rattle.std.specs.Prelude.{◌≡◌, ◌≤◌, ◌+◌, ◌++◌, drop, length, OnOk};
ghost use Rattle.lvs_model.specs.Fields.{word_at, number_at, addr_at, word_bytes, number_bytes, addr_bytes};

use byteorder::{BigEndian, ByteOrder};
use lvs_types::{Addr, NoMemory};

pub(crate) fn word(bytes: &[u8], at: usize) -> u16
    requires { at + 2 ≤ length bytes.now }
    ensures { result ≡ word_at bytes.now at }
{
    BigEndian::read_u16(&bytes[at..])
}

pub(crate) fn number(bytes: &[u8], at: usize) -> u32
    requires { at + 4 ≤ length bytes.now }
    ensures { result ≡ number_at bytes.now at }
{
    BigEndian::read_u32(&bytes[at..])
}

pub(crate) fn addr(bytes: &[u8], at: usize) -> Addr
    requires { at + 4 ≤ length bytes.now }
    ensures { result ≡ addr_at bytes.now at }
{
    Addr {
        number: number(bytes, at),
    }
}

/// The bytes from a place on; none where it is past the end.
pub(crate) fn rest_from(bytes: &[u8], at: usize) -> &[u8]
    ensures { result.now ≡ drop at bytes.now }
{
    bytes.get(at..).unwrap_or(&[])
}

pub(crate) fn put_word(out: &mut Vec<u8>, word: u16) -> Result<(), NoMemory>
    ensures { OnOk result (out.new.items ≡ out.old.items ++ word_bytes word) }
{
    let mut bytes = [0; 2];
    BigEndian::write_u16(&mut bytes, word);
    out.extend_from_slice(&bytes)?;
    Ok(())
}

pub(crate) fn put_number(out: &mut Vec<u8>, number: u32) -> Result<(), NoMemory>
    ensures { OnOk result (out.new.items ≡ out.old.items ++ number_bytes number) }
{
    let mut bytes = [0; 4];
    BigEndian::write_u32(&mut bytes, number);
    out.extend_from_slice(&bytes)?;
    Ok(())
}

pub(crate) fn put_addr(out: &mut Vec<u8>, addr: Addr) -> Result<(), NoMemory>
    ensures { OnOk result (out.new.items ≡ out.old.items ++ addr_bytes addr) }
{
    put_number(out, addr.number)
}
