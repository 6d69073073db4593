//! What the director shows of itself.
ghost use Rattle.std.specs.Prelude.{◌≡◌, ◌++◌, map, not, IfOk};
ghost use Rattle.std.specs.List.{filter, flat_map};
ghost use Rattle.lvs_types.specs.declared.dest.Dest.{Dest};
ghost use Rattle.lvs_types.specs.declared.entry.Entry.{Entry};
ghost use Rattle.lvs_types.specs.declared.service.Service.{Service};
ghost use Rattle.lvs_types.specs.declared.template.Template.{Template};
ghost use Rattle.lvs_flat.specs.Lists.{state_of};
ghost use Rattle.lvs_model.specs.Lists.{sorted_by};
ghost use Rattle.lvs_model.specs.Lookups.{servers_of};
ghost use Rattle.lvs_model.specs.Counts.{row_of};
ghost use Rattle.lvs_model.specs.Snapshots.{shown_dests, snapshot_of};

use crate::dests::is_live_of;
use crate::entries::{count_active, count_inactive};
use crate::lists::Lists;
use crate::templates::count_naming;
use lvs_types::{Dest, DestRow, Entry, Listed, NoMemory, Service, ServiceKey, Snapshot, Template};
use std::alloc::Global;

/// The entries by id.
fn sort_entries(mut entries: Vec<Entry>) -> Result<Vec<Entry>, NoMemory>
    ensures { IfOk result (λ v. v.items ≡ sorted_by (λ (e : Entry). e.id) entries.items) }
{
    entries.sort_by_key(|e| e.id)?;
    Ok(entries)
}

/// The templates by id.
fn sort_templates(mut templates: Vec<Template>) -> Result<Vec<Template>, NoMemory>
    ensures { IfOk result (λ v. v.items ≡ sorted_by (λ (t : Template). t.id.0) templates.items) }
{
    templates.sort_by_key(|t| t.id.0)?;
    Ok(templates)
}

/// The servers by id.
fn sort_dests(mut dests: Vec<Dest>) -> Result<Vec<Dest>, NoMemory>
    ensures { IfOk result (λ v. v.items ≡ sorted_by (λ (d : Dest). d.id.0) dests.items) }
{
    dests.sort_by_key(|d| d.id.0)?;
    Ok(dests)
}

/// The trashed servers, in order of addition.
fn list_trashed(alloc: Global, dests: &[Dest]) -> Result<Vec<Dest>, NoMemory>
    ensures { IfOk result (λ v. v.items ≡ filter (λ (d : Dest). not d.live) dests.now) }
{
    let mut trashed = Vec::new(alloc);
    for d in dests {
        if !d.live {
            trashed.push(*d)?;
        }
    }
    Ok(trashed)
}

/// Appends the servers of a service.
fn add_servers(shown: &mut Vec<Dest>, dests: &[Dest], key: ServiceKey) -> Result<(), NoMemory>
    ensures { IfOk result (λ _. shown.new.items ≡ shown.old.items ++ servers_of key dests.now) }
{
    for d in dests {
        if is_live_of(d, key) {
            shown.push(*d)?;
        }
    }
    Ok(())
}

/// The live servers, service by service.
fn list_live(alloc: Global, services: &[Service], dests: &[Dest]) -> Result<Vec<Dest>, NoMemory>
    ensures { IfOk result (λ v. v.items ≡ flat_map (λ (service : Service). servers_of service.key dests.now) services.now) }
{
    let mut shown = Vec::new(alloc);
    for service in services {
        add_servers(&mut shown, dests, service.key)?;
    }
    Ok(shown)
}

/// The live servers service by service, and then the trashed ones by id.
fn list_shown(alloc: Global, services: &[Service], dests: &[Dest]) -> Result<Vec<Dest>, NoMemory>
    ensures { IfOk result (λ v. v.items ≡ shown_dests services.now dests.now) }
{
    let mut shown = list_live(alloc, services, dests)?;
    let mut trashed = sort_dests(list_trashed(alloc, dests)?)?;
    shown.append(&mut trashed)?;
    Ok(shown)
}

fn row(entries: &[Entry], templates: &[Template], d: &Dest) -> DestRow
    ensures { result ≡ row_of entries.now templates.now d.now }
{
    DestRow {
        dest: *d,
        active: count_active(entries, d.id),
        inactive: count_inactive(entries, d.id),
        templates: count_naming(templates, d.id),
    }
}

/// The servers with what counts at each.
fn list_rows(
    alloc: Global,
    entries: &[Entry],
    templates: &[Template],
    dests: &[Dest],
) -> Result<Vec<DestRow>, NoMemory>
    ensures { IfOk result (λ v. v.items ≡ map (row_of entries.now templates.now) dests.now) }
{
    let mut rows = Vec::with_capacity(alloc, dests.len())?;
    for d in dests {
        rows.push(row(entries, templates, d))?;
    }
    Ok(rows)
}

/// All that the director keeps, in the order in which listings show it.
pub(crate) fn show(alloc: Global, lists: &Lists) -> Result<Snapshot, NoMemory>
    ensures { IfOk result (λ s. s ≡ snapshot_of (state_of lists.now)) }
{
    let dests = list_shown(alloc, &lists.services, &lists.dests)?;
    let rows = list_rows(alloc, &lists.entries, &lists.templates, &dests)?;
    let templates = sort_templates(lists.templates.to_vec(alloc)?)?;
    let entries = sort_entries(lists.entries.to_vec(alloc)?)?;
    Ok(Snapshot {
        now: lists.moment,
        local: lists.local,
        settings: lists.settings,
        daemons: lists.daemons,
        services: Listed::from_vec(lists.services.to_vec(alloc)?),
        dests: Listed::from_vec(rows),
        templates: Listed::from_vec(templates),
        entries: Listed::from_vec(entries),
        pending: Listed::from_vec(lists.pending.to_vec(alloc)?),
    })
}
