//! Servers on the desk as a scheduler sees them.
ghost use Rattle.std.specs.Prelude.{◌≡◌, ◌≤◌, [], length, vec_capacity, map, filter_map, IfSome};
ghost use Rattle.lvs_types.specs.declared.dest.Dest.{Dest};
ghost use Rattle.lvs_model.specs.Lookups.{servers_of};
ghost use Rattle.lvs_model.specs.Counts.{candidates};
ghost use Rattle.lvs_dests.specs.Rows.{dests_of};
ghost use Rattle.lvs_rules.specs.Views.{seen_in};
ghost use Rattle.lvs_board.specs.Candidates.{less_one, ended_in, looked_in, candidate_in, addr_in};
ghost use Rattle.lvs_board.specs.Desks.{state_of, IsSound, Holds};

use crate::desk::Desk;
use crate::lookups::server_of;
use lvs_dests::Dests;
use lvs_rules::{Overload, View, Whole};
use lvs_states::is_active;
use lvs_types::{Addr, Candidate, Entry, ServiceKey};

/// The server with one connection less.
fn less(c: Candidate, e: &Entry) -> Candidate
    ensures { result ≡ less_one e.now c }
{
    if is_active(e.state) {
        Candidate {
            active: c.active.saturating_sub(1),
            ..c
        }
    } else {
        Candidate {
            inactive: c.inactive.saturating_sub(1),
            ..c
        }
    }
}

/// The server once the entry had ended.
fn once_ended(c: Candidate, ended: &Option<Entry>) -> Candidate
    ensures { result ≡ ended_in ended.now c }
{
    match ended {
        Some(e) if e.server == Some(c.id) => less(c, e),
        _ => c,
    }
}

/// The live server with the overload that would then hold of it.
fn once_looked_at(c: Candidate, overload: &Option<Overload>) -> Candidate
    ensures { result ≡ looked_in overload.now c }
{
    match overload {
        Some(o) if c.id == o.server => Candidate {
            eligible: 0 < c.weight && !o.overloaded,
            ..c
        },
        _ => c,
    }
}

/// Puts the servers, as the view sees them, into a list that has room for them.
fn push_seen(found: &mut Vec<Candidate>, candidates: &[Candidate], view: &View)
    requires empty { found.old.items ≡ [] }
    requires room { length candidates.now ≤ vec_capacity found.old }
    ensures { found.new.items ≡ map (candidate_in view.now) candidates.now }
{
    for c in candidates {
        let c = once_ended(*c, &view.ended);
        found.push_reserved(once_looked_at(c, &view.overload));
    }
}

/// Puts the servers' addresses into a list that has room for them.
fn push_addrs(addrs: &mut Vec<Addr>, candidates: &[Candidate], dests: &Dests)
    requires empty { addrs.old.items ≡ [] }
    requires room { length candidates.now ≤ vec_capacity addrs.old }
    ensures { addrs.new.items ≡ filter_map (addr_in (dests_of dests.now.rows)) candidates.now }
{
    for c in candidates {
        if let Some(d) = server_of(dests, c.id) {
            addrs.push_reserved(d.spec.addr);
        }
    }
}

impl Desk {
    /// The live servers of the service as a scheduler sees them in the view, in a list that has
    /// room for all servers.
    pub(crate) fn list_candidates<W: Whole>(
        &self,
        key: ServiceKey,
        view: &View,
        found: &mut Vec<Candidate>,
    )
        requires sound { IsSound W.whole self.now }
        requires holds { IfSome view.now.ended (Holds W.whole self.now) }
        requires empty { found.old.items ≡ [] }
        requires room { length (state_of W.whole self.now).dests ≤ vec_capacity found.old }
        ensures { found.new.items ≡ candidates key (seen_in view.now (state_of W.whole self.now)).dests (seen_in view.now (state_of W.whole self.now)).entries }
    {
        push_seen(found, self.dests.candidates(&key), view);
    }

    /// Their addresses, in a list that has room for all servers.
    pub(crate) fn list_addrs<W: Whole>(&self, key: ServiceKey, addrs: &mut Vec<Addr>)
        requires sound { IsSound W.whole self.now }
        requires empty { addrs.old.items ≡ [] }
        requires room { length (state_of W.whole self.now).dests ≤ vec_capacity addrs.old }
        ensures { addrs.new.items ≡ map (λ (d : Dest). d.spec.addr) (servers_of key (state_of W.whole self.now).dests) }
    {
        push_addrs(addrs, self.dests.candidates(&key), &self.dests);
    }
}
