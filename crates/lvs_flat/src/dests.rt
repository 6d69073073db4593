//! Look-ups and edits of the real servers.
ghost use Rattle.std.specs.Prelude.{◌≡◌, Some, ◌&&◌, ◌+◌, ◌≤◌, [], length, vec_capacity, map, slice_get};
ghost use Rattle.std.specs.List.{find, filter, list_any, position};
ghost use Rattle.lvs_types.specs.declared.dest.Dest.{Dest};
ghost use Rattle.lvs_model.specs.Lookups.{dest_at, has_dest_id, is_server_of, is_server_at, servers_of};
ghost use Rattle.lvs_model.specs.Counts.{is_eligible, candidate_of, candidates, refs, total};
ghost use Rattle.lvs_model.specs.Binding.{serves_at, count_bound, count_ended};
ghost use Rattle.lvs_rules.specs.Views.{dest_in, dests_in, entries_in};
ghost use Rattle.lvs_model.specs.Overload.{overload_bound, overload_ended};

use crate::entries::count_total;
use crate::templates::count_naming;
use crate::view::{count_active_in, count_inactive_in, seen};
use lvs_rules::{View, reaches, relieved};
use lvs_types::{Addr, Candidate, Dest, DestId, Entry, ServiceKey, Template};

/// The server of an id, live or in the trash.
pub(crate) fn get_dest(dests: &[Dest], id: DestId) -> Option<Dest>
    ensures { result ≡ dest_at id dests.now }
{
    for d in dests {
        if d.id == id {
            return Some(*d);
        }
    }
    None
}

/// Whether it is a live server of the service.
pub(crate) fn is_live_of(d: &Dest, key: ServiceKey) -> bool
    ensures { result ≡ is_server_of key d.now }
{
    d.live && d.service == key
}

/// Whether it is a live server of the service at this address and port.
pub(crate) fn is_live_at(d: &Dest, key: ServiceKey, addr: Addr, port: u16) -> bool
    ensures { result ≡ is_server_at key addr port d.now }
{
    is_live_of(d, key) && (d.spec.addr == addr && d.spec.port == port)
}

/// The live server of the service at this address and port.
pub(crate) fn find_at(dests: &[Dest], key: ServiceKey, addr: Addr, port: u16) -> Option<Dest>
    ensures { result ≡ find (is_server_at key addr port) dests.now }
{
    for d in dests {
        if is_live_at(d, key, addr, port) {
            return Some(*d);
        }
    }
    None
}

pub(crate) fn is_there(dests: &[Dest], key: ServiceKey, addr: Addr, port: u16) -> bool
    ensures { result ≡ list_any (is_server_at key addr port) dests.now }
{
    dests.iter().any(|d| is_live_at(d, key, addr, port))
}

/// Whether the server takes the packets of a connection to this address and port.
fn serves(d: &Dest, daddr: Addr, dport: u16, vport: u16) -> bool
    ensures { result ≡ serves_at daddr dport vport d.now }
{
    d.spec.addr == daddr && (d.spec.port == dport || (d.spec.port == 0 && dport == vport))
}

/// The first live server of the service that takes them.
pub(crate) fn find_serving(
    dests: &[Dest],
    key: ServiceKey,
    daddr: Addr,
    dport: u16,
    vport: u16,
) -> Option<Dest>
    ensures { result ≡ find (λ d. is_server_of key d && serves_at daddr dport vport d) dests.now }
{
    for d in dests {
        if is_live_of(d, key) && serves(d, daddr, dport, vport) {
            return Some(*d);
        }
    }
    None
}

fn candidate(entries: &[Entry], d: &Dest, ended: Option<Entry>) -> Candidate
    ensures { result ≡ candidate_of (entries_in ended entries.now) d.now }
{
    Candidate {
        id: d.id,
        weight: d.spec.weight,
        active: count_active_in(entries, ended, d.id),
        inactive: count_inactive_in(entries, ended, d.id),
        eligible: d.live && 0 < d.spec.weight && !d.overloaded,
    }
}

/// The server as a scheduler sees it in the view.
fn candidate_in(entries: &[Entry], d: &Dest, view: &View) -> Candidate
    ensures { result ≡ candidate_of (entries_in view.now.ended entries.now) (dest_in view.now.overload d.now) }
{
    candidate(entries, &seen(d, view.overload), view.ended)
}

/// The servers of a service as a scheduler sees them, in a list that has room for them.
pub(crate) fn list_candidates(
    found: &mut Vec<Candidate>,
    dests: &[Dest],
    entries: &[Entry],
    key: ServiceKey,
    view: &View,
)
    requires empty { found.old.items ≡ [] }
    requires room { length dests.now ≤ vec_capacity found.old }
    ensures { found.new.items ≡ candidates key (dests_in view.now.overload dests.now) (entries_in view.now.ended entries.now) }
{
    for d in dests {
        if is_live_of(&seen(d, view.overload), key) {
            found.push_reserved(candidate_in(entries, d, view));
        }
    }
}

/// The servers' addresses, in a list that has room for them.
pub(crate) fn list_addrs(addrs: &mut Vec<Addr>, dests: &[Dest], key: ServiceKey)
    requires empty { addrs.old.items ≡ [] }
    requires room { length dests.now ≤ vec_capacity addrs.old }
    ensures { addrs.new.items ≡ map (λ (d : Dest). d.spec.addr) (servers_of key dests.now) }
{
    for d in dests {
        if is_live_of(d, key) {
            addrs.push_reserved(d.spec.addr);
        }
    }
}

/// The server at a place among those of a service.
#[tactic(auto, using(crate::proofs::Leaving::later_place))]
pub(crate) fn find_nth(dests: &[Dest], key: ServiceKey, place: usize) -> Option<Dest>
    ensures { result ≡ slice_get (servers_of key dests.now) place }
{
    let mut before = place;
    for d in dests {
        if is_live_of(d, key) {
            if before == 0 {
                return Some(*d);
            }
            before -= 1;
        }
    }
    None
}

/// How much names the server.
pub(crate) fn count_refs(entries: &[Entry], templates: &[Template], id: DestId) -> u128
    ensures { result ≡ refs id entries.now templates.now }
{
    u128::from(count_total(entries, id)) + u128::from(count_naming(templates, id))
}

fn place_of(dests: &[Dest], id: DestId) -> Option<usize>
    ensures { result ≡ position (has_dest_id id) dests.now }
{
    dests.iter().position(|d| d.id == id)
}

fn with_bound(d: &Dest, entries: &[Entry], id: DestId) -> Dest
    ensures { result ≡ record d.now { overloaded = overload_bound d.now.spec (total id entries.now) d.now.overloaded } }
{
    Dest {
        overloaded: d.overloaded || reaches(&d.spec, count_total(entries, id)),
        ..*d
    }
}

/// An entry was bound to the server.
pub(crate) fn note_bound(dests: &mut [Dest], entries: &[Entry], id: DestId)
    ensures { dests.new ≡ count_bound id entries.now dests.old }
{
    if let Some(place) = place_of(dests, id) {
        let d = dests[place];
        dests[place] = with_bound(&d, entries, id);
    }
}

fn with_ended(d: &Dest, entries: &[Entry], id: DestId) -> Dest
    ensures { result ≡ record d.now { overloaded = overload_ended d.now.spec (total id entries.now) d.now.overloaded } }
{
    Dest {
        overloaded: relieved(&d.spec, count_total(entries, id), d.overloaded),
        ..*d
    }
}

fn note_ended_at(dests: &mut [Dest], entries: &[Entry], id: DestId)
    ensures { dests.new ≡ count_ended (Some id) entries.now dests.old }
{
    if let Some(place) = place_of(dests, id) {
        let d = dests[place];
        dests[place] = with_ended(&d, entries, id);
    }
}

/// An entry that named the server was ended.
pub(crate) fn note_ended(dests: &mut [Dest], entries: &[Entry], server: Option<DestId>)
    ensures { dests.new ≡ count_ended server entries.now dests.old }
{
    if let Some(id) = server {
        note_ended_at(dests, entries, id);
    }
}
