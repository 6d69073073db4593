//! The words of a line, each appended with a blank before it.
ghost use Rattle.std.specs.Prelude.{◌≡◌, ◌++◌, [], ◌∷◌, decimal, OnOk};
ghost use Rattle.hex.specs.Hex.{encode_lower};
ghost use Rattle.lvs_model.specs.Report.{addr_text};
ghost use Rattle.lvs_model.specs.Listings.{endpoint_text};
ghost use Rattle.lvs_tidy.specs.ScriptTexts.{spaced};

use lvs_text::{put, put_addr, put_endpoint, put_hex, put_number};
use lvs_types::{Addr, NoMemory};

pub(crate) fn put_word(out: &mut Vec<u8>, word: &[u8]) -> Result<(), NoMemory>
    ensures { OnOk result (out.new.items ≡ out.old.items ++ spaced (word.now ∷ [])) }
{
    put(out, b" ")?;
    put(out, word)
}

pub(crate) fn put_number_word(out: &mut Vec<u8>, number: u64) -> Result<(), NoMemory>
    ensures { OnOk result (out.new.items ≡ out.old.items ++ spaced (decimal number ∷ [])) }
{
    put(out, b" ")?;
    put_number(out, number)
}

pub(crate) fn put_addr_word(out: &mut Vec<u8>, addr: Addr) -> Result<(), NoMemory>
    ensures { OnOk result (out.new.items ≡ out.old.items ++ spaced (addr_text addr ∷ [])) }
{
    put(out, b" ")?;
    put_addr(out, addr)
}

pub(crate) fn put_endpoint_word(out: &mut Vec<u8>, addr: Addr, port: u16) -> Result<(), NoMemory>
    ensures { OnOk result (out.new.items ≡ out.old.items ++ spaced (endpoint_text addr port ∷ [])) }
{
    put(out, b" ")?;
    put_endpoint(out, addr, port)
}

pub(crate) fn put_hex_word(out: &mut Vec<u8>, bytes: &[u8]) -> Result<(), NoMemory>
    ensures { OnOk result (out.new.items ≡ out.old.items ++ spaced (encode_lower bytes.now ∷ [])) }
{
    put(out, b" ")?;
    put_hex(out, bytes)
}
