//! The work of an item of no bucket, with the pass of its actor.
ghost use Rattle.std.specs.Prelude.{◌≡◌};

use crate::played::Played;
use lvs_book::{Pass, Work};
use lvs_types::{Change, Found, NoMemory, Placed};
use std::alloc::Global;
use std::marker::Model;
use std::mem;
use std::snapshot::Snapshot;

/// The item leaves it for the board, and is back after want of memory.
#[derive(Drop)]
pub(crate) struct Alone {
    pub(crate) alloc: Global,
    pub(crate) placed: Option<Placed>,
    pub(crate) own: Snapshot<Pass<Played>>,
}

impl Model for Alone {
    ghost use Rattle.std.specs.Prelude.{IfSome};
    ghost use Rattle.lvs_shared.specs.Works.{AloneSeen, IsAlone};

    ghost Value = { AloneSeen };

    ghost view = { λ w. record { placed = w.placed; own = w.own.value } };

    ghost invariant = { λ w. IfSome w.placed (IsAlone w.own.value) };
}

impl Alone {
    pub(crate) fn into_placed(self) -> Option<Placed>
        ensures { result ≡ self.placed }
    {
        let Alone {
            alloc: _,
            placed,
            own: _,
        } = self;
        placed
    }
}

impl Work<Played> for Alone {
    type Out = Change;

    ghost use Rattle.std.specs.Prelude.{◌≡◌, ◌∷◌, []};
    ghost use Rattle.lvs_shared.specs.Works.{AloneFirst};

    ghost lanes = { λ w. w.own.lane ∷ [] };

    ghost origin = { λ w. w.own.origin };

    ghost lists = { λ w k. w.own.acts };

    ghost first = { λ w a out later. AloneFirst w a };

    ghost second = { λ w later. later.placed ≡ w.placed };

    fn work(&mut self, value: &mut Played) -> Result<Change, NoMemory> {
        let Some(placed) = mem::replace(&mut self.placed, None) else {
            return Err(NoMemory);
        };
        match value.play(self.alloc, placed, Found::Nothing) {
            Ok(change) => Ok(change),
            Err((placed, cause)) => {
                self.placed = Some(placed);
                Err(cause)
            }
        }
    }
}
