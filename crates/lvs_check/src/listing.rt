//! The lines of a listing.
ghost use Rattle.std.specs.Prelude.{◌≡◌, ◌++◌, codes, IfOk};
ghost use Rattle.std.specs.List.{slice_split};
ghost use Rattle.lvs_model.specs.IcmpErrors.{icmp_answer, icmp_text};
ghost use Rattle.lvs_model.specs.Listings.{text_of};
ghost use Rattle.lvs_model.specs.Progress.{listing_lines};

use crate::director::Director;
use crate::due::Due;
use lvs_icmp::answer;
use lvs_listing::{list, list_conns, save};
use lvs_report::print_icmp_answer;
use lvs_types::{Bytes, NoMemory, Shown, Side, Snapshot};
use std::alloc::Global;

/// The line of the answer to an ICMP error.
fn answer_text(
    alloc: Global,
    tables: &Snapshot,
    side: Side,
    bytes: &Bytes,
) -> Result<Bytes, NoMemory>
    ensures { IfOk result (λ text. text ≡ icmp_text (icmp_answer tables.entry.now side bytes.now)) }
{
    let answer = answer(alloc, tables, side, bytes.as_slice())?;
    print_icmp_answer(alloc, &answer)
}

/// The lines of a listing between its first one and its `end`, or the line of the answer to an ICMP
/// error.
pub fn listing_text(alloc: Global, tables: &Snapshot, kind: &Shown) -> Result<Bytes, NoMemory>
    ensures { IfOk result (λ text. text ≡ text_of tables.entry.now kind.now) }
{
    match kind {
        Shown::List => list(alloc, tables),
        Shown::Conns => list_conns(alloc, tables),
        Shown::Save => save(alloc, tables),
        Shown::IcmpIn(bytes) => answer_text(alloc, tables, Side::Inward, bytes),
        Shown::IcmpOut(bytes) => answer_text(alloc, tables, Side::Outward, bytes),
    }
}

/// The lines of a listing of the director as it is, behind its first one, `end` included.
pub(crate) fn listing_lines(
    alloc: Global,
    director: &mut Director,
    kind: &Shown,
) -> Result<Due, NoMemory>
    ensures lines { IfOk result (λ due. due ≡ listing_lines director.old.state kind.now) }
    ensures kept { director.new ≡ director.old }
{
    let mut text = director.show(alloc, kind)?.into_vec();
    text.extend_from_slice(b"end")?;
    Ok(Due::lines(text))
}
