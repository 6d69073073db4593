//! The pool of servers, live and trashed, over a slab: found by id and by place.
ghost use Rattle.std.specs.Prelude.{◌≡◌, ◌≢◌, ℕ, ◌∷◌, [], ◌++◌, ◌+◌, ◌<◌, None, Some, IfSome, IsSomeAnd, IfOk, OnOk, OnErr};
ghost use Rattle.std.specs.Option.{option_copied};
ghost use Rattle.std.specs.List.{find};
ghost use Rattle.slab.specs.Slab.{HasRoomFor};
ghost use Rattle.std.specs.HashMap.{spare};
ghost use Rattle.lvs_types.specs.declared.dest.DestRow.{DestRow};
ghost use Rattle.lvs_types.specs.declared.addr.DestId.{DestId};
ghost use Rattle.lvs_dests.specs.declared.place.Place.{Place};
ghost use Rattle.lvs_dests.specs.Rows.{has_row_id, row_at, replaced};
ghost use Rattle.lvs_dests.specs.Places.{place_of, has_place};
ghost use Rattle.lvs_dests.specs.declared.slots.Slot.{Slot};
ghost use Rattle.lvs_dests.specs.Pool.{IsWhole, rows_of, DifferInId, IsOneAt, Changed, slot_at, key_of_id, key_of_place, IsSame};

use crate::place::Place;
use crate::slots::{self, Slot};
use lvs_types::{DestId, DestRow, NoMemory};
use slab::Slab;
use std::alloc::Global;
use std::collections::HashMap;

/// Servers in a slab, whose keys come back after a removal: an id leads to its key, and a place too.
#[derive(Debug, Drop)]
pub(crate) struct Pool {
    pub(crate) slab: Slab<Slot>,
    pub(crate) ids: HashMap<DestId, usize>,
    pub(crate) places: HashMap<Place, usize>,
    /// The number of the next addition.
    pub(crate) sequence: u64,
}

impl Pool {
    pub(crate) fn new(alloc: Global) -> Pool
        ensures whole { IsWhole result }
        ensures rows { rows_of result ≡ [] }
    {
        Pool {
            slab: Slab::new(alloc),
            ids: HashMap::new(alloc),
            places: HashMap::new(alloc),
            sequence: 0,
        }
    }

    /// The server of an id.
    pub(crate) fn get(&self, id: DestId) -> Option<&DestRow>
        requires { IsWhole self.now }
        ensures row { option_copied result ≡ row_at id (rows_of self.now) }
        ensures apart { DifferInId (rows_of self.now) }
    {
        let Some(&key) = self.ids.get(&id) else {
            return None;
        };
        match self.slab.get(key) {
            Some(slot) => Some(&slot.row),
            None => None,
        }
    }

    /// The server at a place.
    pub(crate) fn at(&self, place: &Place) -> Option<&DestRow>
        requires { IsWhole self.now }
        ensures row { option_copied result ≡ find (has_place place.now) (rows_of self.now) }
        ensures apart { DifferInId (rows_of self.now) }
        ensures one { IfSome result (λ row. IsOneAt place.now row.now (rows_of self.now)) }
    {
        let Some(&key) = self.places.get(place) else {
            return None;
        };
        match self.slab.get(key) {
            Some(slot) => Some(&slot.row),
            None => None,
        }
    }

    /// Puts a server in the place of the one of the same id, which stands at the same place.
    pub(crate) fn write(&mut self, row: DestRow)
        requires whole { IsWhole self.old }
        requires there { IsSomeAnd (row_at row.dest.id (rows_of self.old)) (λ old. place_of old ≡ place_of row) }
        ensures whole { IsWhole self.new }
        ensures rows { rows_of self.new ≡ replaced (has_row_id row.dest.id) (Some row) (rows_of self.old) }
    {
        let Some(&key) = self.ids.get(&row.dest.id) else {
            return;
        };
        let Some(&slot) = self.slab.get(key) else {
            return;
        };
        slots::put(&mut self.slab, key, Slot { row, ..slot });
    }

    /// Makes room for one more server.
    fn make_room(&mut self) -> Result<(), NoMemory>
        ensures same { IsSame self.old self.new }
        ensures slab { OnOk result (HasRoomFor self.new.slab 1) }
        ensures ids { OnOk result (0 < spare self.new.ids) }
        ensures places { OnOk result (0 < spare self.new.places) }
    {
        self.slab.reserve(1)?;
        self.ids.reserve(1)?;
        self.places.reserve(1)?;
        Ok(())
    }

    /// The number of this addition and of the next one. After 2^64 - 1 additions there is none.
    fn next_sequence(&self) -> Result<u64, NoMemory>
        ensures { IfOk result (λ next. next ≡ self.now.sequence + 1) }
    {
        match self.sequence.checked_add(1) {
            Some(next) => Ok(next),
            None => Err(NoMemory),
        }
    }

    /// Puts a server of a new id and a new place last.
    pub(crate) fn insert(&mut self, row: DestRow) -> Result<(), NoMemory>
        requires whole { IsWhole self.old }
        requires new_id { row_at row.dest.id (rows_of self.old) ≡ None }
        requires new_place { find (has_place (place_of row)) (rows_of self.old) ≡ None }
        ensures whole { IsWhole self.new }
        ensures rows { OnOk result (rows_of self.new ≡ rows_of self.old ++ row ∷ []) }
        ensures err { OnErr result (rows_of self.new ≡ rows_of self.old) }
    {
        let next = self.next_sequence()?;
        self.make_room()?;
        self.enter(row);
        self.sequence = next;
        Ok(())
    }

    /// Puts a server and what leads to it into the room that was made.
    fn enter(&mut self, row: DestRow)
        requires slab { HasRoomFor self.old.slab 1 }
        requires ids { 0 < spare self.old.ids }
        requires places { 0 < spare self.old.places }
        ensures vacant { slot_at self.old self.old.slab.vacant_key ≡ None }
        ensures slots { Changed (slot_at self.old) (slot_at self.new) self.old.slab.vacant_key (Some (record { row = row; sequence = self.old.sequence })) }
        ensures ids { Changed (key_of_id self.old) (key_of_id self.new) row.dest.id (Some self.old.slab.vacant_key) }
        ensures places { Changed (key_of_place self.old) (key_of_place self.new) (place_of row) (Some self.old.slab.vacant_key) }
        ensures sequence { self.new.sequence ≡ self.old.sequence }
    {
        let key = self.slab.insert_reserved(Slot {
            row,
            sequence: self.sequence,
        });
        let Ok(_) = self.ids.insert(row.dest.id, key) else {
            unreachable!();
        };
        let Ok(_) = self.places.insert(Place::of(&row), key) else {
            unreachable!();
        };
    }

    /// Puts a server that is there last, with another content at the same place.
    pub(crate) fn renew(&mut self, row: DestRow) -> Result<(), NoMemory>
        requires whole { IsWhole self.old }
        requires there { IsSomeAnd (row_at row.dest.id (rows_of self.old)) (λ old. place_of old ≡ place_of row) }
        ensures whole { IsWhole self.new }
        ensures rows { OnOk result (rows_of self.new ≡ replaced (has_row_id row.dest.id) None (rows_of self.old) ++ row ∷ []) }
        ensures err { OnErr result (rows_of self.new ≡ rows_of self.old) }
    {
        let next = self.next_sequence()?;
        let Some(&key) = self.ids.get(&row.dest.id) else {
            return Err(NoMemory);
        };
        slots::put(
            &mut self.slab,
            key,
            Slot {
                row,
                sequence: self.sequence,
            },
        );
        self.sequence = next;
        Ok(())
    }

    /// Takes out the server of an id.
    pub(crate) fn take(&mut self, id: DestId)
        requires whole { IsWhole self.old }
        ensures whole { IsWhole self.new }
        ensures rows { rows_of self.new ≡ replaced (has_row_id id) None (rows_of self.old) }
    {
        let Some(&key) = self.ids.get(&id) else {
            return;
        };
        self.release(key);
    }

    /// Takes out the server under a key of the slab.
    pub(crate) fn release(&mut self, key: usize)
        requires whole { IsWhole self.old }
        ensures whole { IsWhole self.new }
        ensures rows { (slot : Slot) → slot_at self.old key ≡ Some slot → rows_of self.new ≡ replaced (has_row_id slot.row.dest.id) None (rows_of self.old) }
        ensures slots { (other : ℕ) → other ≢ key → slot_at self.new other ≡ slot_at self.old other }
        ensures gone { slot_at self.new key ≡ None }
        ensures capacity { self.new.slab.capacity ≡ self.old.slab.capacity }
    {
        if let Some(slot) = self.slab.try_remove(key) {
            self.ids.remove(&slot.row.dest.id);
            self.places.remove(&Place::of(&slot.row));
        }
    }
}
