//! A step: the next item of a seat goes to its bucket's lock, or straight to the book.
ghost use Rattle.std.specs.Prelude.{◌≡◌, ◌<◌, ◌≤◌, None, length, IfOk, IfErr};
ghost use Rattle.lvs_book.specs.Passes.{with_act};
ghost use Rattle.lvs_model.specs.Buckets.{home};
ghost use Rattle.lvs_shared.specs.declared.origin.Act.{Act};
ghost use Rattle.lvs_shared.specs.Openings.{begun};
ghost use Rattle.lvs_shared.specs.Played.{Notes};
ghost use Rattle.lvs_shared.specs.Works.{IsOwn};
ghost use Rattle.lvs_shared.specs.Seats.{Went};

use crate::alone::Alone;
use crate::chamber::Chamber;
use crate::name::RoundName;
use crate::played::Played;
use crate::seat::{Seat, Stepped};
use lvs_book::{Book, Pass};
use lvs_core::place;
use lvs_outside::Gate;
use lvs_types::{NoMemory, Placed};
use std::alloc::Global;
use std::snapshot::Snapshot;
use std::sync::{Mutex, Wait};

/// An item of no bucket.
fn commit_alone<R: Wait, G: Gate>(
    rt: &R,
    alloc: Global,
    book: &Book<Played>,
    own: &mut Pass<Played>,
    placed: Placed,
    gate: &G,
) -> Result<(), (Placed, NoMemory)>
    requires book { own.old.book ≡ book.now.id }
    requires own { IsOwn own.old placed }
    requires homeless { home (begun own.old.origin).buckets placed.item ≡ None }
    ensures ok { IfOk result (λ _. (act : Act) × (own.new ≡ with_act act own.old) × Notes own.old.origin placed act) }
    ensures err { IfErr result (λ e. (e.0 ≡ placed) × (own.new ≡ own.old)) }
{
    gate.at(placed.actor, placed.number);
    let mut work = Alone {
        alloc,
        placed: Some(placed),
        own: Snapshot::of(own),
    };
    match book.commit(rt, own, &mut work) {
        Ok(_) => Ok(()),
        Err(cause) => match work.into_placed() {
            Some(placed) => Err((placed, cause)),
            None => unreachable!(),
        },
    }
}

/// An item of the bucket behind the lock of its number, or of none.
///
/// No proof can say which bucket lies behind a lock, since two locks of one type could have their
/// contents swapped. So its number is compared; the locks of a director stand in order, and the other
/// arm is never taken.
fn commit<N: RoundName, R: Wait, G: Gate>(
    rt: &R,
    alloc: Global,
    book: &Book<Played>,
    locks: &[Mutex<Chamber<N>>],
    own: &mut Pass<Played>,
    placed: Placed,
    gate: &G,
) -> Result<(), (Placed, NoMemory)>
    requires books { (book.now.id ≡ N.book.id) × (own.old.book ≡ N.book.id) }
    requires locks { length locks.now ≡ (begun N.book.origin).buckets }
    requires buckets { (0 < (begun N.book.origin).buckets) × ((begun N.book.origin).buckets ≤ 256) }
    requires origin { own.old.origin ≡ N.book.origin }
    requires own { IsOwn own.old placed }
    ensures ok { IfOk result (λ _. (act : Act) × (own.new ≡ with_act act own.old) × Notes N.book.origin placed act) }
    ensures err { IfErr result (λ e. (e.0 ≡ placed) × (own.new ≡ own.old)) }
{
    let home = place(&placed.item, locks.len() as u32);
    let Some(bucket) = home.bucket else {
        return commit_alone(rt, alloc, book, own, placed, gate);
    };
    let mut chamber = locks[bucket as usize].lock(rt);
    if chamber.number() != bucket {
        return Err((placed, NoMemory));
    }
    chamber.enter(rt, alloc, book, own, placed, home.head.as_ref(), gate)
}

/// A step over the two parts of a director.
pub(crate) fn step_on<N: RoundName, R: Wait, G: Gate>(
    rt: &R,
    alloc: Global,
    book: &Book<Played>,
    locks: &[Mutex<Chamber<N>>],
    seat: &mut Seat<N>,
    gate: &G,
) -> Result<Stepped, NoMemory>
    requires book { book.now.id ≡ N.book.id }
    requires locks { length locks.now ≡ (begun N.book.origin).buckets }
    ensures ok { IfOk result (λ stepped. Went stepped seat.old seat.new) }
    ensures err { IfErr result (λ _. seat.new ≡ seat.old) }
{
    let Some(item) = seat.left.pop() else {
        return Ok(Stepped::Finished);
    };
    let placed = Placed {
        actor: seat.actor,
        number: seat.number,
        item,
    };
    match commit::<N, R, G>(rt, alloc, book, locks, &mut seat.pass, placed, gate) {
        Ok(()) => {
            let done = seat.number;
            seat.number += 1;
            Ok(Stepped::Done(done))
        }
        Err((placed, cause)) => {
            seat.left.push_reserved(placed.item);
            Err(cause)
        }
    }
}
