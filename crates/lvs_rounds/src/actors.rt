//! The actors of a round, each stepping its seat to the end.
ghost use Rattle.std.specs.Prelude.{◌≡◌, map, true, IfOk};
ghost use Rattle.lvs_shared.specs.Seats.{AreAtEnd};

use lvs_outside::Gate;
use lvs_shared::{Director, RoundName, Seat, Stepped};
use lvs_types::NoMemory;
use std::alloc::Global;
use std::sync::Wait;
use std::thread;
use std::thread::Threads;

/// What all actors step at once. Threads see of a director no more than this.
pub(crate) trait Works<R: Wait, G: Gate> {
    ghost use Rattle.std.specs.Prelude.{◌≡◌, ℕ};

    /// What an actor steps.
    type Seat: Send + Drop;

    // Whose seat it is.
    ghost actor: { Self.Seat → ℕ };

    /// Steps a seat until its list is at its end, or there is no memory.
    fn work(&self, rt: &R, alloc: Global, seat: Self::Seat, gate: &G) -> Self::Seat
        ensures { actor result ≡ actor seat };
}

impl<N: RoundName + Send + Sync, R: Wait, G: Gate> Works<R, G> for Director<N> {
    type Seat = Seat<N>;

    ghost actor = { λ s. s.actor };

    fn work(&self, rt: &R, alloc: Global, mut seat: Seat<N>, gate: &G) -> Seat<N> {
        for _ in rt.forever() {
            match self.step(rt, alloc, &mut seat, gate) {
                Ok(Stepped::Done(_)) => {}
                Ok(Stepped::Finished) | Err(_) => return seat,
            }
        }
        unreachable!()
    }
}

/// All actors at once: a thread each, or one after another where no thread can be made.
pub(crate) fn work_at_once<R: Threads + Wait + Sync, G: Gate + Sync, D: Works<R, G> + Sync>(
    rt: &R,
    alloc: Global,
    director: &D,
    seats: Vec<D::Seat>,
    gate: &G,
) -> Result<Vec<D::Seat>, NoMemory>
    ensures { IfOk result (λ v. map D.actor v.items ≡ map D.actor seats.items) }
{
    let work = |seat: D::Seat| -> D::Seat
        ensures { D.actor result ≡ D.actor seat }
    { director.work(rt, alloc, seat, gate) };
    Ok(thread::map_vec(rt, seats, &work)?)
}

/// Whether the list of each seat is used up.
pub(crate) fn are_at_end<N: RoundName>(seats: &[Seat<N>]) -> bool
    ensures { result ≡ true → AreAtEnd seats.now }
{
    for seat in seats {
        if !seat.is_at_end() {
            return false;
        }
    }
    true
}
