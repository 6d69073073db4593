//! Real servers that come, come back, or get another specification, and the cursors of those that leave.
ghost use Rattle.std.specs.Prelude.{◌≡◌, ◌<◌, ◌≤◌, ◌+◌, ◌^◌, None, Some, IfOk, OnOk, OnErr, vec_len, vec_capacity};
ghost use Rattle.std.specs.List.{find, position};
ghost use Rattle.lvs_flat.specs.Lists.{state_of};
ghost use Rattle.lvs_types.specs.declared.service.Service.{Service};
ghost use Rattle.lvs_model.specs.Lists.{update_first, without};
ghost use Rattle.lvs_model.specs.Lookups.{has_dest_id, is_server_at, has_service_key, servers_of};
ghost use Rattle.lvs_model.specs.Counts.{total};
ghost use Rattle.lvs_model.specs.Edits.{is_revivable, new_dest, revived, respecified, place_server, server_before, step_back};

use crate::dests::is_live_at;
use crate::entries::count_total;
use crate::lists::Lists;
use crate::services::set_step_back;
use lvs_rules::reaches;
use lvs_types::{Addr, Dest, DestId, DestSpec, Entry, NoMemory, Service, ServiceKey};

fn is_kept_for(d: &Dest, key: ServiceKey, spec: &DestSpec) -> bool
    ensures { result ≡ is_revivable key spec.now d.now }
{
    !d.live && d.service == key && (d.spec.addr == spec.addr && d.spec.port == spec.port)
}

/// A server in the trash of this service, address and port.
fn find_revivable(dests: &[Dest], key: ServiceKey, spec: &DestSpec) -> Option<Dest>
    ensures { result ≡ find (is_revivable key spec.now) dests.now }
{
    for d in dests {
        if is_kept_for(d, key, spec) {
            return Some(*d);
        }
    }
    None
}

fn make_dest(id: DestId, key: ServiceKey, spec: &DestSpec) -> Dest
    ensures { result ≡ new_dest id key spec.now }
{
    Dest {
        id,
        service: key,
        spec: *spec,
        overloaded: reaches(spec, 0),
        live: true,
    }
}

fn revive(d: &Dest, entries: &[Entry], spec: &DestSpec) -> Dest
    ensures { result ≡ revived entries.now spec.now d.now }
{
    Dest {
        spec: *spec,
        overloaded: reaches(spec, count_total(entries, d.id)),
        live: true,
        ..*d
    }
}

fn respecify(d: &Dest, entries: &[Entry], spec: &DestSpec) -> Dest
    ensures { result ≡ respecified entries.now spec.now d.now }
{
    Dest {
        spec: *spec,
        overloaded: reaches(spec, count_total(entries, d.id)),
        ..*d
    }
}

fn take_out(dests: &mut Vec<Dest>, id: DestId)
    ensures items { dests.new.items ≡ without (has_dest_id id) dests.old.items }
    ensures bound { vec_len dests.new ≤ vec_len dests.old }
    ensures capacity { vec_capacity dests.new ≡ vec_capacity dests.old }
{
    dests.retain(|d| d.id != id);
}

/// Takes a server back from the trash, or makes a new one; it stands last.
fn place_kept(
    lists: &mut Lists,
    key: ServiceKey,
    spec: &DestSpec,
    kept: Option<Dest>,
) -> Result<(), NoMemory>
    requires { lists.old.next_dest ≤ 2 ^ 62 }
    ensures ok { IfOk result (λ _. state_of lists.new ≡ place_server (state_of lists.old) key spec.now kept) }
    ensures err { OnErr result (state_of lists.new ≡ state_of lists.old) }
{
    match kept {
        None => {
            lists
                .dests
                .push(make_dest(DestId(lists.next_dest), key, spec))?;
            lists.next_dest += 1;
        }
        Some(d) => {
            lists.dests.reserve(1)?;
            let revived = revive(&d, &lists.entries, spec);
            take_out(&mut lists.dests, d.id);
            lists.dests.push_reserved(revived);
        }
    }
    Ok(())
}

/// The server comes back from the trash, or a new one comes.
pub(crate) fn place(lists: &mut Lists, key: ServiceKey, spec: &DestSpec) -> Result<(), NoMemory>
    requires { lists.old.next_dest ≤ 2 ^ 62 }
    ensures ok { OnOk result (state_of lists.new ≡ place_server (state_of lists.old) key spec.now (find (is_revivable key spec.now) lists.old.dests.items)) }
    ensures err { OnErr result (state_of lists.new ≡ state_of lists.old) }
{
    let kept = find_revivable(&lists.dests, key, spec);
    place_kept(lists, key, spec, kept)
}

fn place_of(dests: &[Dest], key: ServiceKey, addr: Addr, port: u16) -> Option<usize>
    ensures { result ≡ position (is_server_at key addr port) dests.now }
{
    dests.iter().position(|d| is_live_at(d, key, addr, port))
}

/// The server at the address and port of the specification gets it.
pub(crate) fn respecify_at(dests: &mut [Dest], entries: &[Entry], key: ServiceKey, spec: &DestSpec)
    ensures { dests.new ≡ update_first (is_server_at key spec.now.addr spec.now.port) (respecified entries.now spec.now) dests.old }
{
    if let Some(place) = place_of(dests, key, spec.addr, spec.port) {
        let d = dests[place];
        dests[place] = respecify(&d, entries, spec);
    }
}

/// The server that stands before the one of an id among those of a service.
fn find_before(dests: &[Dest], key: ServiceKey, id: DestId) -> Option<DestId>
    ensures { result ≡ server_before id None (servers_of key dests.now) }
{
    let mut previous = None;
    for d in dests {
        if d.live && d.service == key {
            if d.id == id {
                return previous;
            }
            previous = Some(d.id);
        }
    }
    None
}

/// A cursor of the service that names the server goes back to the one before it.
pub(crate) fn step_back_from(services: &mut [Service], dests: &[Dest], key: ServiceKey, id: DestId)
    ensures { services.new ≡ update_first (has_service_key key) (step_back id (servers_of key dests.now)) services.old }
{
    let before = find_before(dests, key, id);
    set_step_back(services, key, id, before);
}
