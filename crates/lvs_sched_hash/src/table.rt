//! The table of slots, by which an address picks a server.
ghost use Rattle.std.specs.Prelude.{◌≡◌, ℕ, ◌%◌, ◌<◌, length, sum_by, Some, None};
ghost use Rattle.lvs_model.specs.AddressHash.{share, owner_of, sh_slot, dh_slot};
ghost use Rattle.lvs_sched_hash.specs.Tables.{HoldsSlots};

use crate::element::Element;
use crate::slot::SLOTS;
use lvs_types::Candidate;
use std::marker::Model;

/// The 256 slots of a service with sh or dh: each holds the place of a server, from 0, or nothing
/// where the service has no server.
#[derive(Debug, Drop)]
pub struct SlotTable {
    pub(crate) slots: [Option<usize>; SLOTS],
}

impl Model for SlotTable {
    ghost use Rattle.std.specs.Prelude.{List, ℕ, Option};

    ghost Value = { List (Option ℕ) };

    ghost view = { λ t. t.slots };
}

impl SlotTable {
    /// The slots of source hashing (ipvsadm(8), sh): each server as often as its weight, in order of
    /// addition, over and over; a server of weight 0 once.
    pub fn of_sh(servers: &[Candidate]) -> Self
        ensures { HoldsSlots (sh_slot servers.now) result }
    {
        match servers {
            [] => SlotTable::empty(),
            _ => SlotTable {
                slots: shares(servers),
            },
        }
    }

    /// The slots of destination hashing (ipvsadm(8), dh): the servers in order of addition, over
    /// and over.
    pub fn of_dh(servers: &[Candidate]) -> Self
        ensures { HoldsSlots (dh_slot servers.now) result }
    {
        match servers {
            [] => SlotTable::empty(),
            _ => SlotTable {
                slots: rounds(servers.len()),
            },
        }
    }

    fn empty() -> Self
        ensures { HoldsSlots (λ _. None) result }
    {
        SlotTable {
            slots: [None; SLOTS],
        }
    }
}

/// The elements of the sequence of sh, in order, over and over.
fn shares(servers: &[Candidate]) -> [Option<usize>; SLOTS]
    requires { 0 < length servers.now }
    ensures { HoldsSlots (λ k. Some (owner_of (k % sum_by share servers.now) servers.now)) result }
{
    let mut slots = [None; SLOTS];
    let mut element = Element::first(servers);
    for slot in slots.iter_mut() {
        *slot = Some(element.place);
        element = element.next(servers);
    }
    slots
}

/// The places below the number of servers, in order, over and over.
fn rounds(servers: usize) -> [Option<usize>; SLOTS]
    requires { 0 < servers }
    ensures { HoldsSlots (λ k. Some (k % servers)) result }
{
    let mut slots = [None; SLOTS];
    for (k, slot) in slots.iter_mut().enumerate() {
        *slot = Some(k % servers);
    }
    slots
}
