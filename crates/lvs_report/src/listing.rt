//! Listings.
ghost use Rattle.std.specs.Prelude.{◌≡◌, ◌++◌, drop, OnOk};
ghost use Rattle.lvs_model.specs.Report.{shown_name, shown_text, listings_text};

use lvs_text::{put, put_hex};
use lvs_types::{NoMemory, Shown, ShownText};

fn put_name(out: &mut Vec<u8>, kind: &Shown) -> Result<(), NoMemory>
    ensures { OnOk result (out.new.items ≡ out.old.items ++ shown_name kind.now) }
{
    match kind {
        Shown::List => put(out, b"list"),
        Shown::Conns => put(out, b"conns"),
        Shown::Save => put(out, b"save"),
        Shown::IcmpIn(bytes) => {
            put(out, b"icmp in ")?;
            put_hex(out, bytes.as_slice())
        }
        Shown::IcmpOut(bytes) => {
            put(out, b"icmp out ")?;
            put_hex(out, bytes.as_slice())
        }
    }
}

fn put_listing(out: &mut Vec<u8>, listing: &ShownText) -> Result<(), NoMemory>
    ensures { OnOk result (out.new.items ≡ out.old.items ++ shown_text listing.now) }
{
    put_name(out, &listing.kind)?;
    put(out, b"\n")?;
    put(out, listing.text.as_slice())?;
    put(out, b"end\n")
}

/// Appends the listings in order.
pub(crate) fn put_listings(out: &mut Vec<u8>, listings: &[ShownText]) -> Result<(), NoMemory>
    ensures { OnOk result (out.new.items ≡ out.old.items ++ listings_text listings.now) }
{
    for listing in listings {
        put_listing(out, listing)?;
    }
    Ok(())
}
