//! What an item finds among entries and their deadlines.
ghost use Rattle.std.specs.Prelude.{◌≡◌, IfOk};
ghost use Rattle.std.specs.List.{filter};
ghost use Rattle.std.specs.Option.{option_copied};
ghost use Rattle.lvs_model.specs.Buckets.{head_of_item, look_in, one_or_nothing as one_by, is_due_entry};
ghost use Rattle.lvs_bucket.specs.Pairs.{IsPair};

use crate::learnt::find_recorded;
use crate::packets::{find_incoming, find_outgoing};
use lvs_entries::Entries;
use lvs_timer::Timers;
use lvs_types::{Entry, Found, Head, Item, Listed, NoMemory};
use std::alloc::Global;

fn one_or_nothing(found: Option<Entry>) -> Found
    ensures { result ≡ one_by found }
{
    match found {
        Some(e) => Found::One(e),
        None => Found::Nothing,
    }
}

/// All due entries, in order of id.
fn list_due(
    alloc: Global,
    entries: &Entries,
    timers: &Timers,
    now: u64,
) -> Result<Listed<Entry>, NoMemory>
    requires { IsPair entries.now.entries timers.now.timers }
    ensures { IfOk result (λ due. due ≡ filter (is_due_entry now) entries.now.entries) }
{
    let ids = timers.due(alloc, now)?;
    let mut due = Vec::with_capacity(alloc, ids.len())?;
    for id in &ids {
        if let Some(e) = entries.get(*id) {
            due.push(*e)?;
        }
    }
    Ok(Listed::from_vec(due))
}

/// What an item finds; `head` is what the headers of its packet say.
pub(crate) fn look(
    alloc: Global,
    entries: &Entries,
    timers: &Timers,
    item: &Item,
    head: Option<&Head>,
    now: u64,
) -> Result<Found, NoMemory>
    requires pair { IsPair entries.now.entries timers.now.timers }
    requires read { option_copied head ≡ head_of_item item.now }
    ensures { IfOk result (λ found. found ≡ look_in now item.now entries.now.entries) }
{
    match item {
        Item::Incoming { .. } => Ok(one_or_nothing(find_incoming(entries, head))),
        Item::Outgoing { .. } => Ok(one_or_nothing(find_outgoing(entries, head))),
        Item::Learn { item, .. } => Ok(one_or_nothing(find_recorded(entries, item))),
        Item::Sweep(_) => Ok(Found::Due(list_due(alloc, entries, timers, now)?)),
        Item::Edit(_)
        | Item::Set(_)
        | Item::BadSync(_)
        | Item::Tick(_)
        | Item::Reap
        | Item::SendSync => Ok(Found::Nothing),
    }
}
