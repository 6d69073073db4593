//! An actor's seat in a round.
ghost use Rattle.std.specs.Prelude.{◌≡◌, [], reverse, true};
ghost use Rattle.lvs_shared.specs.Seats.{IsSeat};

use crate::name::RoundName;
use crate::played::Played;
use lvs_book::Pass;
use lvs_types::Item;
use std::marker::{Model, PhantomData};

/// What a step did.
#[derive(Clone, Copy, Debug, PartialEq, Eq)]
pub enum Stepped {
    /// The seat's item of that number is in the book.
    Done(u64),
    /// The seat's list is at its end.
    Finished,
}

/// The seat of an actor, with its own pass on the book. Contracts see the actor, how many items of its
/// list were done, the items that are left, and the pass.
#[derive(Drop)]
pub struct Seat<N: RoundName> {
    pub(crate) actor: u32,
    pub(crate) number: u64,
    /// The next one is the last.
    pub(crate) left: Vec<Item>,
    pub(crate) pass: Pass<Played>,
    pub(crate) of: PhantomData<N>,
}

impl<N: RoundName> Model for Seat<N> {
    ghost use Rattle.std.specs.Prelude.{reverse};
    ghost use Rattle.lvs_shared.specs.Seats.{IsSeat, SeatSeen};

    ghost Value = { SeatSeen };

    ghost view = { λ s. record { actor = s.actor; number = s.number; left = reverse s.left.items; pass = s.pass } };

    ghost invariant = { λ s. IsSeat N.book.id N.book.origin (record { actor = s.actor; number = s.number; left = reverse s.left.items; pass = s.pass }) };
}

impl<N: RoundName> Seat<N> {
    /// The seat of an actor, with the items of its list, the next one last.
    pub(crate) fn new(actor: u32, left: Vec<Item>, pass: Pass<Played>) -> Seat<N>
        requires { IsSeat N.book.id N.book.origin (record { actor = actor; number = 0; left = reverse left.items; pass = pass }) }
        ensures { result ≡ record { actor = actor; number = 0; left = reverse left.items; pass = pass } }
    {
        Seat {
            actor,
            number: 0,
            left,
            pass,
            of: PhantomData,
        }
    }

    /// 0 the clock, 1 control, 2 sync, 3 and up the workers.
    pub fn actor(&self) -> u32
        ensures { result ≡ self.now.actor }
    {
        self.actor
    }

    /// Whether its list is used up.
    pub fn is_at_end(&self) -> bool
        ensures { result ≡ true → self.now.left ≡ [] }
    {
        self.left.is_empty()
    }

    pub(crate) fn into_pass(self) -> Pass<Played>
        ensures pass { result ≡ self.pass }
        ensures seat { IsSeat N.book.id N.book.origin self }
    {
        let Seat {
            actor: _,
            number: _,
            left: _,
            pass,
            of: _,
        } = self;
        pass
    }
}
