//! Maglev hashing: a table that is filled from the servers' weights and addresses.
ghost use Rattle.std.specs.Prelude.{◌≡◌, ℕ, ◌<◌, List, true, length, None, IfSome, is_some, slice_index_or};
ghost use Rattle.lvs_types.specs.declared.addr.Addr.{Addr};
ghost use Rattle.lvs_model.specs.AddressHash.{slot_of, eligible_in};
ghost use Rattle.lvs_model.specs.MorePicks.{total_weight, mh_table, pick_mh};
ghost use Rattle.lvs_sched_more.specs.Evenness.{IsEven};
ghost use Rattle.std.specs.List.{list_all};

use crate::filling::Filling;
use crate::slots::{SLOTS, slot};
use crate::weights::total_weight;
use lvs_types::{Addr, Candidate};
use std::marker::Model;

/// The 256 slots of a service with mh: each holds the place of a server, from 0, or nothing where no
/// server has a weight.
#[derive(Debug, Drop)]
pub struct MhTable {
    slots: [Option<usize>; SLOTS],
}

impl Model for MhTable {
    ghost use Rattle.std.specs.Prelude.{List, ℕ, Option};

    ghost Value = { List (Option ℕ) };

    ghost view = { λ t. t.slots };
}

impl MhTable {
    /// The slots for servers with these addresses, in order of addition: filled in rounds, in which
    /// each server takes a share of 64 slots by its weight, from the first free one that it prefers
    /// by its address (this project's profile). Eligible or not, each server with a weight counts. Of
    /// two servers with equal shares the earlier has at least as many slots, and at most a share more.
    pub fn of(servers: &[Candidate], addrs: &[Addr]) -> Self
        requires { length addrs.now ≡ length servers.now }
        ensures value { result ≡ mh_table servers.now addrs.now }
        ensures number { length result ≡ 256 }
        ensures full { 0 < total_weight servers.now → list_all (λ slot. is_some slot) result ≡ true }
        ensures even { IsEven servers.now result }
    {
        let total = total_weight(servers);
        let mut filling = Filling {
            slots: [None; SLOTS],
            free: SLOTS,
        };
        if total > 0 {
            filling.fill(servers, addrs, total);
        }
        MhTable {
            slots: filling.slots,
        }
    }
}

/// The place of the server of the client's slot, where it is eligible. The table is of these
/// servers, which may have changed since in everything but order, weight and address.
pub fn pick_mh(table: &MhTable, servers: &[Candidate], client: Addr) -> Option<usize>
    ensures slot { result ≡ eligible_in servers.now (slice_index_or table.now (slot_of client) None) }
    ensures within { IfSome result (λ place. place < length servers.now) }
    ensures mh { (addrs : List Addr) → table.now ≡ mh_table servers.now addrs → result ≡ pick_mh servers.now addrs client }
{
    let place = table.slots[slot(client)]?;
    let server = servers.get(place)?;
    if server.eligible { Some(place) } else { None }
}
