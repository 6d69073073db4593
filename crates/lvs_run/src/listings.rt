//! The listings of a round.
ghost use Rattle.std.specs.Prelude.{◌≡◌, IfOk};
ghost use Rattle.std.specs.List.{list_any, filter_map};
ghost use Rattle.lvs_model.specs.Plans.{shown_by, listings_of};
ghost use Rattle.lvs_model.specs.Listings.{shown_of};
ghost use Rattle.lvs_run.specs.Listings.{is_listing, shown_in, all_shown_in};

use lvs_check::listing_text;
use lvs_core::Core;
use lvs_types::{Listed, NoMemory, Round, ScriptLine, Shown, ShownText, Snapshot};
use std::alloc::Global;

fn is_listing(line: &ScriptLine) -> bool
    ensures { result ≡ is_listing line.now }
{
    match line {
        ScriptLine::Show(_) => true,
        _ => false,
    }
}

/// Whether a round asks for a listing.
fn has_listing(round: &Round) -> bool
    ensures { result ≡ list_any is_listing round.now.lines }
{
    round.lines.as_slice().iter().any(is_listing)
}

/// A listing with its lines.
fn show(alloc: Global, tables: &Snapshot, kind: &Shown) -> Result<ShownText, NoMemory>
    ensures { IfOk result (λ shown. shown ≡ shown_in tables.entry.now kind.now) }
{
    Ok(ShownText {
        kind: kind.copy(alloc)?,
        text: listing_text(alloc, tables, kind)?,
    })
}

/// The listings that lines ask for, in their order.
fn show_lines(
    alloc: Global,
    tables: &Snapshot,
    lines: &[ScriptLine],
) -> Result<Vec<ShownText>, NoMemory>
    ensures { IfOk result (λ shown. shown.items ≡ all_shown_in tables.entry.now (filter_map shown_by lines.now)) }
{
    let mut all = Vec::new(alloc);
    for line in lines {
        if let ScriptLine::Show(kind) = line {
            all.push(show(alloc, tables, kind)?)?;
        }
    }
    Ok(all)
}

/// The listings of a round, of a director as it is now.
pub(crate) fn show_round(
    alloc: Global,
    core: &Core,
    round: &Round,
) -> Result<Listed<ShownText>, NoMemory>
    ensures { IfOk result (λ shown. shown ≡ shown_of core.now.state (listings_of round.now)) }
{
    if !has_listing(round) {
        return Ok(Listed::new(alloc));
    }
    let tables = core.snapshot(alloc)?;
    let shown = show_lines(alloc, &tables, round.lines.as_slice())?;
    Ok(Listed::from_vec(shown))
}
