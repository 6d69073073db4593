//! The threads' director.
ghost use Rattle.std.specs.Prelude.{◌≡◌, IfOk, IfErr};
ghost use Rattle.lvs_shared.specs.Seats.{Went};

use crate::chamber::Chamber;
use crate::name::RoundName;
use crate::played::Played;
use crate::seat::{Seat, Stepped};
use crate::stepping::step_on;
use lvs_book::Book;
use lvs_outside::Gate;
use lvs_types::NoMemory;
use std::alloc::Global;
use std::marker::{Model, PhantomData};
use std::sync::{Mutex, Wait};

/// The director of a round, which threads share by `&`. Contracts see its book's identity, the core and
/// the plan that it began with, and the round's number.
#[derive(Drop)]
pub struct Director<N: RoundName> {
    pub(crate) number: u64,
    /// Of the round, in seconds.
    pub(crate) moment: u64,
    pub(crate) book: Book<Played>,
    /// In order of the buckets.
    pub(crate) locks: Vec<Mutex<Chamber<N>>>,
    pub(crate) of: PhantomData<N>,
}

impl<N: RoundName> Model for Director<N> {
    ghost use Rattle.std.specs.Prelude.{vec_len};
    ghost use Rattle.lvs_shared.specs.Rounds.{DirectorSeen, IsDirector};

    ghost Value = { DirectorSeen };

    ghost view = { λ d. record { book = d.book.id; origin = d.book.origin; number = d.number } };

    ghost invariant = { λ d. IsDirector N.book d.book d.moment (vec_len d.locks) };
}

impl<N: RoundName> Director<N> {
    /// Does the seat's next item: `Done(n)` where it is in the book, and was the seat's item n;
    /// `Finished` where the seat's list is at its end. After want of memory the item is the seat's
    /// again. It may wait for the lock of the item's bucket, and for its turn at the board.
    pub fn step<R: Wait, G: Gate>(
        &self,
        rt: &R,
        alloc: Global,
        seat: &mut Seat<N>,
        gate: &G,
    ) -> Result<Stepped, NoMemory>
        ensures ok { IfOk result (λ stepped. Went stepped seat.old seat.new) }
        ensures err { IfErr result (λ _. seat.new ≡ seat.old) }
    {
        step_on(rt, alloc, &self.book, &self.locks, seat, gate)
    }
}
