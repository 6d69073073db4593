//! The text of a round.
ghost use Rattle.std.specs.Prelude.{◌≡◌, ◌++◌, OnOk, IfOk};
ghost use Rattle.lvs_model.specs.Report.{head_text, round_text};

use crate::act::put_acts;
use crate::listing::put_listings;
use lvs_text::{put, put_number};
use lvs_types::{Bytes, NoMemory, RoundBook};
use std::alloc::Global;

fn put_head(out: &mut Vec<u8>, book: &RoundBook) -> Result<(), NoMemory>
    ensures { OnOk result (out.new.items ≡ out.old.items ++ head_text book.now) }
{
    put(out, b"round ")?;
    put_number(out, book.number)?;
    put(out, b" at ")?;
    put_number(out, book.moment)?;
    put(out, b" workers ")?;
    put_number(out, u64::from(book.workers))?;
    put(out, b" buckets ")?;
    put_number(out, u64::from(book.buckets))?;
    put(out, b"\n")
}

/// The text of a round: its head, its acts in order of place and its listings. Ticks, sweeps and
/// reaps that changed nothing, and sendings of nothing, have no line; their places count.
pub fn print_round(alloc: Global, book: &RoundBook) -> Result<Bytes, NoMemory>
    ensures { IfOk result (λ text. text ≡ round_text book.now) }
{
    let mut out = Vec::new(alloc);
    put_head(&mut out, book)?;
    put_acts(&mut out, book.acts.as_slice())?;
    put_listings(&mut out, book.shown.as_slice())?;
    Ok(Bytes::from_vec(out))
}
