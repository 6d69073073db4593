//! Servers leave their services on the desk.
ghost use Rattle.std.specs.Prelude.{◌≡◌, ◌≤◌, ◌-◌, None, Some, OnOk, OnErr, length, nat_eq};
ghost use Rattle.std.specs.List.{find, IsDistinct};
ghost use Rattle.lvs_types.specs.declared.dest.Dest.{Dest};
ghost use Rattle.lvs_model.specs.Edits.{remove_dest, remove_dests};
ghost use Rattle.lvs_model.specs.Lists.{update_first};
ghost use Rattle.lvs_model.specs.Lookups.{has_service_key, is_server_at, is_server_of};
ghost use Rattle.lvs_model.specs.Same.{dest_eq};
ghost use Rattle.lvs_model.specs.WellFormed.{dest_ids};
ghost use Rattle.lvs_dests.specs.Rows.{candidates_of, dests_of, is_row_at, removed_by};
ghost use Rattle.lvs_board.specs.Desks.{state_of, IsSound};
ghost use Rattle.lvs_board.specs.Removals.{candidate_before, left_in, stepped_back};

use crate::desk::Desk;
use crate::lookups::server_of;
use crate::servers::nth;
use lvs_dests::Dests;
use lvs_rules::Whole;
use lvs_services::Services;
use lvs_types::{Addr, Candidate, Cursor, Dest, DestId, NoMemory, ServiceKey};
use std::alloc::Global;

/// The one before that of this id; the first one has none.
fn before(candidates: &[Candidate], id: DestId) -> Option<DestId>
    ensures { result ≡ candidate_before id None candidates.now }
{
    let mut previous = None;
    for c in candidates {
        if c.id == id {
            return previous;
        }
        previous = Some(c.id);
    }
    None
}

/// Whether the server is the one that was picked last.
fn is_last(last: Option<DestId>, id: DestId) -> bool
    ensures { result ≡ dest_eq last id }
{
    last == Some(id)
}

/// A cursor of the service that names the server goes back to the one before it.
fn step_back(services: &mut Services, candidates: &[Candidate], key: &ServiceKey, id: DestId)
    ensures { services.new ≡ update_first (has_service_key key.now) (stepped_back id candidates.now) services.old }
{
    let Some(service) = services.get(key).copied() else {
        return;
    };
    if is_last(service.cursor.last, id) {
        let last = before(candidates, id);
        let cw = service.cursor.cw;
        services.set_cursor(key, Cursor { last, cw });
    }
}

/// The live server at the address and port leaves its service.
fn take_out(dests: &mut Dests, key: &ServiceKey, addr: Addr, port: u16)
    ensures removed { dests.new ≡ removed_by dests.old (find (is_row_at key.now addr port) dests.old.rows) }
    ensures apart { IsDistinct nat_eq (dest_ids (dests_of dests.new.rows)) }
{
    let _ = dests.remove(key, addr, port);
    // Each look-up says that the ids are apart.
    let _ = dests.candidates(key);
}

/// The first live server of the service, if there is one, leaves it.
fn take_first(dests: &mut Dests, key: &ServiceKey)
    ensures same { left_in key.now dests.new.rows ≡ left_in key.now dests.old.rows }
    ensures fewer { length (candidates_of key.now dests.new.rows) ≤ length (candidates_of key.now dests.old.rows) - 1 }
    ensures next { dests.new.next ≡ dests.old.next }
{
    let Some(candidate) = nth(dests.candidates(key), 0) else {
        return;
    };
    let Some(d) = server_of(dests, candidate.id) else {
        return;
    };
    let _ = dests.remove(key, d.spec.addr, d.spec.port);
}

/// All live servers of the service leave it.
fn take_all(dests: &mut Dests, key: &ServiceKey)
    ensures left { dests.new ≡ record dests.old { rows = left_in key.now dests.old.rows } }
    ensures apart { IsDistinct nat_eq (dest_ids (dests_of dests.new.rows)) }
{
    let many = dests.candidates(key).len();
    for _ in 0..many {
        take_first(dests, key);
    }
    // Each look-up says that the ids are apart.
    let _ = dests.candidates(key);
}

impl Desk {
    /// The live server at the address and port leaves its service: it is released where nothing
    /// names it, and else goes to the trash. A cursor of the service that names it goes back to the
    /// one before it.
    pub(crate) fn remove_server<W: Whole>(
        &mut self,
        key: ServiceKey,
        addr: Addr,
        port: u16,
        d: &Dest,
    )
        requires sound { IsSound W.whole self.old }
        requires there { find (is_server_at key addr port) (state_of W.whole self.old).dests ≡ Some d.now }
        ensures state { state_of W.whole self.new ≡ remove_dest (state_of W.whole self.old) key d.now }
        ensures sound { IsSound W.whole self.new }
        ensures rest { self.new ≡ record self.old { services = self.new.services; dests = self.new.dests } }
    {
        let candidates = self.dests.candidates(&key);
        step_back(&mut self.services, candidates, &key, d.id);
        take_out(&mut self.dests, &key, addr, port);
    }

    /// All live servers of the service leave it.
    pub(crate) fn remove_servers_of<W: Whole>(&mut self, key: ServiceKey)
        requires sound { IsSound W.whole self.old }
        ensures state { state_of W.whole self.new ≡ record (state_of W.whole self.old) { dests = remove_dests (is_server_of key) (state_of W.whole self.old).entries (state_of W.whole self.old).templates (state_of W.whole self.old).dests } }
        ensures sound { IsSound W.whole self.new }
        ensures rest { self.new ≡ record self.old { dests = self.new.dests } }
    {
        take_all(&mut self.dests, &key);
    }

    /// All live servers leave their services. It takes no memory.
    pub(crate) fn remove_all_servers<W: Whole>(&mut self, _alloc: Global) -> Result<(), NoMemory>
        requires sound { IsSound W.whole self.old }
        ensures ok { OnOk result (state_of W.whole self.new ≡ record (state_of W.whole self.old) { dests = remove_dests (λ (d : Dest). d.live) (state_of W.whole self.old).entries (state_of W.whole self.old).templates (state_of W.whole self.old).dests }) }
        ensures err { OnErr result (self.new ≡ self.old) }
        ensures sound { IsSound W.whole self.new }
        ensures rest { self.new ≡ record self.old { dests = self.new.dests } }
    {
        self.dests.remove_all();
        Ok(())
    }
}
