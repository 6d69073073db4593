//! Real servers that leave their services: released where nothing names them, and else kept in the trash.
ghost use Rattle.std.specs.Prelude.{◌≡◌, IfOk};
ghost use Rattle.lvs_types.specs.declared.dest.Dest.{Dest};
ghost use Rattle.lvs_model.specs.Lookups.{is_server_of, has_dest_id};
ghost use Rattle.lvs_model.specs.Edits.{trashed, leaving, remove_dests};

use crate::dests::count_refs;
use crate::lists::Lists;
use lvs_types::{Dest, DestId, Entry, NoMemory, ServiceKey, Template};
use std::alloc::Global;

fn to_trash(d: &Dest, references: u128) -> Option<Dest>
    ensures { result ≡ trashed d.now references }
{
    if references == 0 {
        None
    } else {
        Some(Dest { live: false, ..*d })
    }
}

fn leave(d: &Dest, leaves: bool, entries: &[Entry], templates: &[Template]) -> Option<Dest>
    ensures { result ≡ leaving (λ _. leaves) entries.now templates.now d.now }
{
    if leaves {
        to_trash(d, count_refs(entries, templates, d.id))
    } else {
        Some(*d)
    }
}

/// The servers once those of a service have left.
pub(crate) fn keep_after_service(
    alloc: Global,
    lists: &Lists,
    key: ServiceKey,
) -> Result<Vec<Dest>, NoMemory>
    ensures { IfOk result (λ v. v.items ≡ remove_dests (is_server_of key) lists.now.entries.items lists.now.templates.items lists.now.dests.items) }
{
    let mut kept = Vec::with_capacity(alloc, lists.dests.len())?;
    for d in &lists.dests {
        if let Some(d) = leave(
            d,
            d.live && d.service == key,
            &lists.entries,
            &lists.templates,
        ) {
            kept.push(d)?;
        }
    }
    Ok(kept)
}

/// The servers once all have left.
pub(crate) fn keep_after_clear(alloc: Global, lists: &Lists) -> Result<Vec<Dest>, NoMemory>
    ensures { IfOk result (λ v. v.items ≡ remove_dests (λ (d : Dest). d.live) lists.now.entries.items lists.now.templates.items lists.now.dests.items) }
{
    let mut kept = Vec::with_capacity(alloc, lists.dests.len())?;
    for d in &lists.dests {
        if let Some(d) = leave(d, d.live, &lists.entries, &lists.templates) {
            kept.push(d)?;
        }
    }
    Ok(kept)
}

/// The servers once the one of an id has left.
pub(crate) fn keep_after_server(
    alloc: Global,
    lists: &Lists,
    id: DestId,
) -> Result<Vec<Dest>, NoMemory>
    ensures { IfOk result (λ v. v.items ≡ remove_dests (has_dest_id id) lists.now.entries.items lists.now.templates.items lists.now.dests.items) }
{
    let mut kept = Vec::with_capacity(alloc, lists.dests.len())?;
    for d in &lists.dests {
        if let Some(d) = leave(d, d.id == id, &lists.entries, &lists.templates) {
            kept.push(d)?;
        }
    }
    Ok(kept)
}
