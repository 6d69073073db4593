//! The work of an item of a bucket, with the pass of its actor and that of the bucket.
ghost use Rattle.std.specs.Prelude.{◌≡◌};

use crate::played::Played;
use lvs_book::{Pass, Work};
use lvs_types::{Change, Found, NoMemory, Placed};
use std::alloc::Global;
use std::marker::Model;
use std::mem;
use std::snapshot::Snapshot;

/// The item leaves it for the board, with what its bucket has for it, and is back after want of memory.
#[derive(Drop)]
pub(crate) struct Paired {
    pub(crate) alloc: Global,
    pub(crate) placed: Option<Placed>,
    pub(crate) found: Option<Found>,
    pub(crate) own: Snapshot<Pass<Played>>,
    pub(crate) home: Snapshot<Pass<Played>>,
}

impl Model for Paired {
    ghost use Rattle.lvs_shared.specs.Works.{PairedSeen, IsPair};

    ghost Value = { PairedSeen };

    ghost view = { λ w. record { placed = w.placed; found = w.found; own = w.own.value; home = w.home.value } };

    ghost invariant = { λ w. IsPair (record { placed = w.placed; found = w.found; own = w.own.value; home = w.home.value }) };
}

impl Paired {
    pub(crate) fn into_placed(self) -> Option<Placed>
        ensures { result ≡ self.placed }
    {
        let Paired {
            alloc: _,
            placed,
            found: _,
            own: _,
            home: _,
        } = self;
        placed
    }
}

impl Work<Played> for Paired {
    type Out = Change;

    ghost use Rattle.std.specs.Prelude.{◌≡◌, ◌∷◌, [], cond, eqb};
    ghost use Rattle.lvs_shared.specs.Works.{PairedFirst};

    ghost lanes = { λ w. w.home.lane ∷ w.own.lane ∷ [] };

    ghost origin = { λ w. w.own.origin };

    ghost lists = { λ w k. cond (eqb w.home.lane k) w.home.acts w.own.acts };

    ghost first = { λ w a out later. PairedFirst w a out };

    ghost second = { λ w later. later.placed ≡ w.placed };

    fn work(&mut self, value: &mut Played) -> Result<Change, NoMemory> {
        let Some(found) = mem::replace(&mut self.found, None) else {
            return Err(NoMemory);
        };
        let Some(placed) = mem::replace(&mut self.placed, None) else {
            return Err(NoMemory);
        };
        match value.play(self.alloc, placed, found) {
            Ok(change) => Ok(change),
            Err((placed, cause)) => {
                self.placed = Some(placed);
                Err(cause)
            }
        }
    }
}
