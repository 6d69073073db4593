//! The filling of a table of mh, in rounds.
ghost use Rattle.std.specs.Prelude.{◌≡◌, ℕ, ◌+◌, ◌-◌, ◌<◌, ◌≤◌, List, [], ◌++◌, length, fold, replicate, sum_by, count_by, slice_index_or};
ghost use Rattle.lvs_model.specs.MorePicks.{is_of, take_slot, takers, round_from, total_weight, slots_a_round};
ghost use Rattle.lvs_sched_more.specs.Filling.{IsFilling};

use crate::slots::{SLOTS, first_free, preferred, taken_by};
use crate::weights::slots_a_round;
use lvs_types::{Addr, Candidate};

/// A table that is being filled.
#[derive(Drop)]
pub(crate) struct Filling {
    /// The place of each slot's server.
    pub(crate) slots: [Option<usize>; SLOTS],
    /// How many slots are free.
    pub(crate) free: usize,
}

impl Filling {
    /// The server at the place takes one more slot, having taken so many.
    fn take(&mut self, addrs: &[Addr], place: usize, taken: usize)
        requires filling { IsFilling self.old.free self.old.slots }
        requires free { 0 < self.old.free }
        requires place { place < length addrs.now }
        requires taken { taken ≡ count_by (is_of place) self.old.slots }
        ensures slots { self.new.slots ≡ take_slot addrs.now self.old.slots place }
        ensures free { self.new.free + 1 ≡ self.old.free }
        ensures taken { count_by (is_of place) self.new.slots ≡ taken + 1 }
        ensures filling { IsFilling self.new.free self.new.slots }
    {
        let slot = first_free(&self.slots, preferred(addrs[place], taken));
        self.slots[slot] = Some(place);
        self.free -= 1;
    }

    /// The server at the place takes its slots of a round, or as many as are free.
    fn turn(&mut self, addrs: &[Addr], place: usize, slots_a_round: u128)
        requires filling { IsFilling self.old.free self.old.slots }
        requires place { place < length addrs.now }
        ensures slots { (rest round : List ℕ) → fold (take_slot addrs.now) self.new.slots (takers self.new.free rest round) ≡ fold (take_slot addrs.now) self.old.slots (takers self.old.free (replicate slots_a_round place ++ rest) round) }
        ensures free { self.new.free ≡ self.old.free - slots_a_round }
        ensures filling { IsFilling self.new.free self.new.slots }
    {
        // A server with no weight costs no look through the slots.
        if slots_a_round == 0 {
            return;
        }
        let mut taken = taken_by(&self.slots, place);
        let mut left = slots_a_round;
        while left > 0 && self.free > 0 {
            self.take(addrs, place, taken);
            taken += 1;
            left -= 1;
        }
    }

    /// A round: each server takes its slots.
    fn round(&mut self, servers: &[Candidate], addrs: &[Addr], total: u128)
        requires filling { IsFilling self.old.free self.old.slots }
        requires addrs { length addrs.now ≡ length servers.now }
        requires total { total ≡ total_weight servers.now }
        ensures slots { (round : List ℕ) → fold (take_slot addrs.now) self.new.slots (takers self.new.free [] round) ≡ fold (take_slot addrs.now) self.old.slots (takers self.old.free (round_from total 0 servers.now) round) }
        ensures free { self.new.free ≡ self.old.free - sum_by (slots_a_round total) servers.now }
        ensures filling { IsFilling self.new.free self.new.slots }
    {
        for (place, server) in servers.iter().enumerate() {
            if self.free == 0 {
                return;
            }
            self.turn(addrs, place, slots_a_round(server, total));
        }
    }

    /// Rounds until no slot is free.
    pub(crate) fn fill(&mut self, servers: &[Candidate], addrs: &[Addr], total: u128)
        requires filling { IsFilling self.old.free self.old.slots }
        requires addrs { length addrs.now ≡ length servers.now }
        requires total { total ≡ total_weight servers.now }
        requires some { 0 < total }
        ensures { self.new.slots ≡ fold (take_slot addrs.now) self.old.slots (takers self.old.free [] (round_from total 0 servers.now)) }
    {
        while self.free > 0 {
            self.round(servers, addrs, total);
        }
    }
}
