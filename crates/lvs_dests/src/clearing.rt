//! All live servers leave their services, in one walk over the pool.
ghost use Rattle.std.specs.Prelude.{◌≡◌, ◌≢◌, ℕ, Some, true};
ghost use Rattle.std.specs.Option.{option_and_then};
ghost use Rattle.lvs_dests.specs.Rows.{all_left, AreWellFormed};
ghost use Rattle.lvs_dests.specs.Pool.{IsWhole, rows_of, slot_at, left_slot};

use crate::dests::Dests;
use crate::lists::Lists;
use crate::pool::Pool;
use crate::row;
use crate::slots::{self, Slot};

impl Pool {
    /// The server under a key leaves its service, where it is live: it is released where nothing
    /// names it, and else it stands in the trash.
    fn leave(&mut self, key: usize)
        requires whole { IsWhole self.old }
        ensures whole { IsWhole self.new }
        ensures here { slot_at self.new key ≡ option_and_then left_slot (slot_at self.old key) }
        ensures others { (other : ℕ) → other ≢ key → slot_at self.new other ≡ slot_at self.old other }
    {
        let Some(&slot) = self.slab.get(key) else {
            return;
        };
        if slot.row.dest.live {
            self.retire(key, slot);
        }
    }

    /// The live server under a key leaves its service.
    fn retire(&mut self, key: usize, slot: Slot)
        requires whole { IsWhole self.old }
        requires there { slot_at self.old key ≡ Some slot }
        requires live { slot.row.dest.live ≡ true }
        ensures whole { IsWhole self.new }
        ensures here { slot_at self.new key ≡ left_slot slot }
        ensures others { (other : ℕ) → other ≢ key → slot_at self.new other ≡ slot_at self.old other }
    {
        if row::is_free(&slot.row) {
            self.release(key);
        } else {
            let row = row::trash(&slot.row);
            slots::put(&mut self.slab, key, Slot { row, ..slot });
        }
    }

    /// All live servers leave their services.
    fn leave_all(&mut self)
        requires whole { IsWhole self.old }
        ensures whole { IsWhole self.new }
        ensures rows { rows_of self.new ≡ all_left (rows_of self.old) }
    {
        for key in 0..self.slab.capacity() {
            self.leave(key);
        }
    }
}

impl Dests {
    /// All live servers leave their services: each is released where nothing names it, and else it
    /// stands in the trash. The ids of all servers are apart and below the next one, and no two
    /// stand at one place.
    pub fn remove_all(&mut self)
        ensures rows { self.new ≡ record self.old { rows = all_left self.old.rows } }
        ensures well_formed { AreWellFormed self.new }
    {
        self.pool.leave_all();
        self.lists = Lists::new(self.alloc);
    }
}
