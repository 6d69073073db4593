//! Servers on the desk: look-ups, and how many connections they have.
ghost use Rattle.std.specs.Prelude.{◌≡◌, ◌+◌, ◌<◌, ◌^◌, ◌≤◌, ◌&&◌, true, is_some, length, IfSome, slice_get};
ghost use Rattle.std.specs.List.{find, list_any};
ghost use Rattle.lvs_model.specs.Binding.{serves_at};
ghost use Rattle.lvs_model.specs.Lookups.{dest_at, has_entry_id, is_server_at, is_server_of, servers_of};
ghost use Rattle.lvs_model.specs.Lists.{without};
ghost use Rattle.lvs_model.specs.Counts.{total};
ghost use Rattle.lvs_model.specs.Same.{dest_eq};
ghost use Rattle.lvs_board.specs.Desks.{state_of, IsSound, Holds, Serves};

use crate::desk::Desk;
use crate::lookups::{server_of, serving, standing};
use lvs_rules::Whole;
use lvs_types::{Addr, Candidate, Dest, DestId, Entry, ServiceKey};

/// The one at a place.
pub(crate) fn nth(candidates: &[Candidate], place: usize) -> Option<Candidate>
    ensures { result ≡ slice_get candidates.now place }
{
    candidates.get(place).copied()
}

/// Whether the entry names the server.
fn names(e: &Entry, id: DestId) -> bool
    ensures { result ≡ dest_eq e.now.server id }
{
    e.server == Some(id)
}

impl Desk {
    /// The server of an id, live or in the trash.
    pub(crate) fn server<W: Whole>(&self, id: DestId) -> Option<Dest>
        requires sound { IsSound W.whole self.now }
        ensures server { result ≡ dest_at id (state_of W.whole self.now).dests }
        ensures serves { IfSome result (Serves self.now) }
    {
        server_of(&self.dests, id)
    }

    /// The live server of the service at this address and port.
    pub(crate) fn server_at<W: Whole>(&self, key: ServiceKey, addr: Addr, port: u16) -> Option<Dest>
        requires sound { IsSound W.whole self.now }
        ensures server { result ≡ find (is_server_at key addr port) (state_of W.whole self.now).dests }
        ensures serves { IfSome result (Serves self.now) }
    {
        standing(&self.dests, key, addr, port)
    }

    /// Whether a live server of the service is at this address and port.
    pub(crate) fn is_server<W: Whole>(&self, key: ServiceKey, addr: Addr, port: u16) -> bool
        requires sound { IsSound W.whole self.now }
        ensures { result ≡ list_any (is_server_at key addr port) (state_of W.whole self.now).dests }
    {
        self.server_at::<W>(key, addr, port).is_some()
    }

    /// The first live server of the service that takes the packets of a connection to this address
    /// and port, where `vport` is the virtual one.
    pub(crate) fn server_for<W: Whole>(
        &self,
        key: ServiceKey,
        daddr: Addr,
        dport: u16,
        vport: u16,
    ) -> Option<Dest>
        requires sound { IsSound W.whole self.now }
        ensures server { result ≡ find (λ d. is_server_of key d && serves_at daddr dport vport d) (state_of W.whole self.now).dests }
        ensures serves { IfSome result (Serves self.now) }
    {
        serving(&self.dests, key, daddr, dport, vport)
    }

    /// The server at a place among the live ones of the service.
    pub(crate) fn nth_server<W: Whole>(&self, key: ServiceKey, place: usize) -> Option<Dest>
        requires sound { IsSound W.whole self.now }
        ensures server { result ≡ slice_get (servers_of key (state_of W.whole self.now).dests) place }
        ensures serves { IfSome result (Serves self.now) }
    {
        let Some(candidate) = nth(self.dests.candidates(&key), place) else {
            return None;
        };
        server_of(&self.dests, candidate.id)
    }

    /// At least as many as there are servers, live and in the trash.
    pub(crate) fn count_servers<W: Whole>(&self) -> usize
        requires sound { IsSound W.whole self.now }
        ensures { length (state_of W.whole self.now).dests ≤ result }
    {
        self.dests.len()
    }

    /// How many entries but this one name the server, which is there.
    pub(crate) fn count_others<W: Whole>(&self, e: &Entry, id: DestId) -> u64
        requires sound { IsSound W.whole self.now }
        requires holds { Holds W.whole self.now e.now }
        requires there { is_some (dest_at id (state_of W.whole self.now).dests) ≡ true }
        ensures value { result ≡ total id (without (has_entry_id e.now.id) (state_of W.whole self.now).entries) }
        ensures bound { result + 1 < 2 ^ 64 }
    {
        let Some(totals) = self.dests.totals(id) else {
            return 0;
        };
        let all = totals.active + totals.inactive;
        if names(e, id) { all - 1 } else { all }
    }
}
