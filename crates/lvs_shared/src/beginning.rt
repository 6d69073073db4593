//! How a round begins: each bucket goes behind a lock with its pass, and each actor gets a seat.
ghost use Rattle.std.specs.Prelude.{◌≡◌, ◌+◌, ◌<◌, ◌≤◌, ◌^◌, [], length, reverse, vec_len, vec_capacity, IfOk, IfErr};
ghost use Rattle.lvs_book.specs.Passes.{opened};
ghost use Rattle.lvs_core.specs.Agree.{AreBuckets};
ghost use Rattle.lvs_shared.specs.Openings.{begun, IsOpened};
ghost use Rattle.lvs_shared.specs.Seats.{new_seats};

use crate::chamber::Chamber;
use crate::director::Director;
use crate::name::RoundName;
use crate::opening::Opening;
use crate::played::Played;
use crate::seat::Seat;
use lvs_book::Pass;
use lvs_bucket::Bucket;
use lvs_types::{Item, Listed, NoMemory};
use std::alloc::Global;
use std::marker::PhantomData;
use std::sync::Mutex;

/// The items, with the first one last.
fn turned(list: Listed<Item>) -> Vec<Item>
    ensures { reverse result.items ≡ list }
{
    let mut left = list.into_vec();
    left.as_mut_slice().reverse();
    left
}

/// A seat for each list, in order, with the last passes.
fn seated<N: RoundName>(
    mut lists: Vec<Listed<Item>>,
    passes: &mut Vec<Pass<Played>>,
    mut seats: Vec<Seat<N>>,
) -> Vec<Seat<N>>
    requires opened { IsOpened N.book.origin }
    requires lists { lists.items ≡ N.book.origin.plan.lists }
    requires passes { passes.old.items ≡ opened N.book.id N.book.origin 0 ((begun N.book.origin).buckets + length lists.items) }
    requires room { (seats.items ≡ []) × (vec_len seats ≡ 0) × (vec_len lists ≤ vec_capacity seats) }
    ensures seats { result.items ≡ new_seats N.book.id N.book.origin 0 N.book.origin.plan.lists }
    ensures passes { passes.new.items ≡ opened N.book.id N.book.origin 0 (begun N.book.origin).buckets }
{
    while let Some(list) = lists.pop() {
        let Some(pass) = passes.pop() else {
            unreachable!()
        };
        seats.push_reserved(Seat::new(lists.len() as u32, turned(list), pass));
    }
    seats.as_mut_slice().reverse();
    seats
}

/// A lock round each bucket with its pass, in order.
fn shut<N: RoundName>(
    mut buckets: Vec<Bucket>,
    mut passes: Vec<Pass<Played>>,
    moment: u64,
    mut locks: Vec<Mutex<Chamber<N>>>,
) -> Vec<Mutex<Chamber<N>>>
    requires opened { IsOpened N.book.origin }
    requires moment { moment ≡ (begun N.book.origin).now }
    requires buckets { AreBuckets (begun N.book.origin) 0 buckets.items }
    requires count { length buckets.items ≡ (begun N.book.origin).buckets }
    requires passes { passes.items ≡ opened N.book.id N.book.origin 0 (begun N.book.origin).buckets }
    requires room { (vec_len locks ≡ 0) × (vec_len buckets ≤ vec_capacity locks) }
    ensures { vec_len result ≡ vec_len buckets }
{
    while let Some(bucket) = buckets.pop() {
        let Some(pass) = passes.pop() else {
            unreachable!()
        };
        locks.push_reserved(Mutex::new(Chamber::new(bucket, pass, moment)));
    }
    locks.as_mut_slice().reverse();
    locks
}

impl<N: RoundName> Director<N> {
    /// The director of a round, and the seats in order of their actors, each at number 0. All memory
    /// is taken first; without it the opening comes back.
    pub fn begin(
        alloc: Global,
        opening: Opening,
    ) -> Result<(Director<N>, Vec<Seat<N>>), (Opening, NoMemory)>
        requires book { opening.book ≡ N.book.id }
        requires origin { opening.origin ≡ N.book.origin }
        ensures director { IfOk result (λ r. r.0 ≡ opening) }
        ensures seats { IfOk result (λ r. r.1.items ≡ new_seats opening.book opening.origin 0 opening.origin.plan.lists) }
        ensures err { IfErr result (λ e. e.0 ≡ opening) }
    {
        let Ok(locks) = Vec::with_capacity(alloc, opening.buckets.len()) else {
            return Err((opening, NoMemory));
        };
        let Ok(seats) = Vec::with_capacity(alloc, opening.lists.len()) else {
            return Err((opening, NoMemory));
        };
        let Opening {
            number,
            moment,
            book,
            mut passes,
            buckets,
            lists,
        } = opening;
        let seats = seated(lists, &mut passes, seats);
        let locks = shut(buckets, passes, moment, locks);
        let director = Director {
            number,
            moment,
            book,
            locks,
            of: PhantomData,
        };
        Ok((director, seats))
    }
}
