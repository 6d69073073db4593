//! The pieces that lines are made of, each appended to one buffer.
ghost use Rattle.std.specs.Prelude.{◌≡◌, ◌++◌, ◌∷◌, [], ◌+◌, ◌/◌, ◌%◌, decimal, OnOk};
ghost use Rattle.hex.specs.Hex.{encode_lower};
ghost use Rattle.lvs_model.specs.Report.{addr_text};
ghost use Rattle.lvs_model.specs.Listings.{endpoint_text};

use itoa::Buffer;
use lvs_types::{Addr, NoMemory};

/// Appends a text.
pub fn put(out: &mut Vec<u8>, text: &[u8]) -> Result<(), NoMemory>
    ensures { OnOk result (out.new.items ≡ out.old.items ++ text.now) }
{
    out.extend_from_slice(text)?;
    Ok(())
}

/// Appends a number in decimal digits, without leading zeros.
pub fn put_number(out: &mut Vec<u8>, number: u64) -> Result<(), NoMemory>
    ensures { OnOk result (out.new.items ≡ out.old.items ++ decimal number) }
{
    put(out, Buffer::new().format(number).as_bytes())
}

/// Appends an address as four numbers joined by dots.
pub fn put_addr(out: &mut Vec<u8>, addr: Addr) -> Result<(), NoMemory>
    ensures { OnOk result (out.new.items ≡ out.old.items ++ addr_text addr) }
{
    let number = u64::from(addr.number);
    put_number(out, number / 16_777_216)?;
    put(out, b".")?;
    put_number(out, number / 65_536 % 256)?;
    put(out, b".")?;
    put_number(out, number / 256 % 256)?;
    put(out, b".")?;
    put_number(out, number % 256)
}

/// Appends ADDR:PORT.
pub fn put_endpoint(out: &mut Vec<u8>, addr: Addr, port: u16) -> Result<(), NoMemory>
    ensures { OnOk result (out.new.items ≡ out.old.items ++ endpoint_text addr port) }
{
    put_addr(out, addr)?;
    put(out, b":")?;
    put_number(out, u64::from(port))
}

/// Appends bytes as lower-case hexadecimal digits, two for each.
pub fn put_hex(out: &mut Vec<u8>, bytes: &[u8]) -> Result<(), NoMemory>
    ensures { OnOk result (out.new.items ≡ out.old.items ++ encode_lower bytes.now) }
{
    let Some(digits) = bytes.len().checked_mul(2) else {
        return Err(NoMemory);
    };
    let start = out.len();
    let Some(end) = start.checked_add(digits) else {
        return Err(NoMemory);
    };
    out.resize(end, b'0')?;
    match hex::encode_to_slice(bytes, &mut out[start..]) {
        Ok(()) => Ok(()),
        Err(_) => unreachable!(),
    }
}
