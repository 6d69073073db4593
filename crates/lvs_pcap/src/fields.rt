//! Numbers in the byte order of a file.
ghost use Rattle.std.specs.Prelude.{◌≡◌, ◌≤◌, ◌+◌, ◌++◌, length, OnOk};
ghost use Rattle.lvs_model.specs.CaptureFiles.{word_in, number_in, little_word, little_number};

use byteorder::{BigEndian, ByteOrder, LittleEndian};
use lvs_model::capture::Endianness;
use lvs_types::NoMemory;

/// The number of the two bytes at a place.
pub(crate) fn word(order: Endianness, bytes: &[u8], at: usize) -> u16
    requires { at + 2 ≤ length bytes.now }
    ensures { result ≡ word_in order bytes.now at }
{
    match order {
        Endianness::Little => LittleEndian::read_u16(&bytes[at..]),
        Endianness::Big => BigEndian::read_u16(&bytes[at..]),
    }
}

/// The number of the four bytes at a place.
pub(crate) fn number(order: Endianness, bytes: &[u8], at: usize) -> u32
    requires { at + 4 ≤ length bytes.now }
    ensures { result ≡ number_in order bytes.now at }
{
    match order {
        Endianness::Little => LittleEndian::read_u32(&bytes[at..]),
        Endianness::Big => BigEndian::read_u32(&bytes[at..]),
    }
}

/// Two bytes more, the low byte first.
pub(crate) fn put_word(out: &mut Vec<u8>, word: u16) -> Result<(), NoMemory>
    ensures { OnOk result (out.new.items ≡ out.old.items ++ little_word word) }
{
    let mut bytes = [0; 2];
    LittleEndian::write_u16(&mut bytes, word);
    out.extend_from_slice(&bytes)?;
    Ok(())
}

/// Four bytes more, the low byte first.
pub(crate) fn put_number(out: &mut Vec<u8>, number: u32) -> Result<(), NoMemory>
    ensures { OnOk result (out.new.items ≡ out.old.items ++ little_number number) }
{
    let mut bytes = [0; 4];
    LittleEndian::write_u32(&mut bytes, number);
    out.extend_from_slice(&bytes)?;
    Ok(())
}

/// These bytes more.
pub(crate) fn put_bytes(out: &mut Vec<u8>, bytes: &[u8]) -> Result<(), NoMemory>
    ensures { OnOk result (out.new.items ≡ out.old.items ++ bytes.now) }
{
    out.extend_from_slice(bytes)?;
    Ok(())
}
