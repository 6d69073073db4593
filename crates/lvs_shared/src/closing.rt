//! How a round ends: locks and seats give their passes back, and the book its board.
ghost use Rattle.std.specs.Prelude.{◌≡◌, ◌+◌, ◌≤◌, ◌++◌, [], length, vec_len, vec_capacity, true, IfOk, IfErr};
ghost use Rattle.lvs_model.specs.Books.{IsSound, IsWhole};
ghost use Rattle.lvs_shared.specs.Seats.{passes_in, AreAtEnd, AreSeated, AreSeats};
ghost use Rattle.lvs_shared.specs.Rounds.{AreFrom, AreHomes, HaveNumbers};

use crate::chamber::Chamber;
use crate::director::Director;
use crate::name::RoundName;
use crate::played::Played;
use crate::seat::Seat;
use lvs_book::Pass;
use lvs_bucket::Bucket;
use lvs_core::Core;
use lvs_types::{Listed, NoMemory, RoundBook};
use std::alloc::Global;
use std::marker::PhantomData;
use std::sync::Mutex;

/// How many actors aren't workers: the clock, control and sync.
const OTHERS: usize = 3;

/// What lay behind the locks, in their order. None of them is left.
fn unlocked<N: RoundName>(
    locks: &mut Vec<Mutex<Chamber<N>>>,
    mut chambers: Vec<Chamber<N>>,
) -> Vec<Chamber<N>>
    requires { (vec_len chambers ≡ 0) × (vec_len locks.old ≤ vec_capacity chambers) }
    ensures len { vec_len result ≡ vec_len locks.old }
    ensures room { (vec_len locks.new ≡ 0) × (vec_len locks.old ≤ vec_capacity locks.new) }
{
    while let Some(lock) = locks.pop() {
        chambers.push_reserved(lock.into_inner());
    }
    chambers.as_mut_slice().reverse();
    chambers
}

/// The same behind locks again.
fn locked<N: RoundName>(mut chambers: Vec<Chamber<N>>, locks: &mut Vec<Mutex<Chamber<N>>>)
    requires { (vec_len locks.old ≡ 0) × (vec_len chambers ≤ vec_capacity locks.old) }
    ensures { vec_len locks.new ≡ vec_len chambers }
{
    while let Some(chamber) = chambers.pop() {
        locks.push_reserved(Mutex::new(chamber));
    }
    locks.as_mut_slice().reverse();
}

/// Whether the buckets' numbers are 0, 1, 2 and on.
fn are_in_order<N: RoundName>(chambers: &[Chamber<N>]) -> bool
    ensures { result ≡ true → AreFrom 0 chambers.now }
{
    let mut next = 0u64;
    for chamber in chambers {
        if u64::from(chamber.number()) != next {
            return false;
        }
        next += 1;
    }
    true
}

/// The buckets, and their passes.
fn parts_of<N: RoundName>(
    chambers: Vec<Chamber<N>>,
    mut buckets: Vec<Bucket>,
    passes: &mut Vec<Pass<Played>>,
) -> Vec<Bucket>
    requires order { AreFrom 0 chambers.items }
    requires empty { (buckets.items ≡ []) × (passes.old.items ≡ []) }
    requires room { (vec_len buckets ≡ 0) × (vec_len chambers ≤ vec_capacity buckets) × (vec_len passes.old ≡ 0) × (vec_len chambers ≤ vec_capacity passes.old) }
    ensures homes { AreHomes N.book.id N.book.origin 0 result.items passes.new.items }
    ensures len { length result.items ≡ vec_len chambers }
    ensures room { (vec_len passes.new ≡ vec_len chambers) × (vec_capacity passes.new ≡ vec_capacity passes.old) }
{
    for chamber in chambers {
        let (bucket, pass) = chamber.into_parts();
        buckets.push_reserved(bucket);
        passes.push_reserved(pass);
    }
    buckets
}

/// The passes of the seats, behind those of the buckets.
fn passes_of<N: RoundName>(seats: Vec<Seat<N>>, passes: &mut Vec<Pass<Played>>)
    requires order { AreSeats 0 (length N.book.origin.plan.lists) seats.items }
    requires room { vec_len passes.old + vec_len seats ≤ vec_capacity passes.old }
    ensures seated { AreSeated N.book.id N.book.origin 0 seats.items }
    ensures passes { passes.new.items ≡ passes.old.items ++ passes_in seats.items }
{
    for seat in seats {
        passes.push_reserved(seat.into_pass());
    }
}

/// Room for what the locks and the seats give back.
#[derive(Drop)]
struct Room<N: RoundName> {
    chambers: Vec<Chamber<N>>,
    buckets: Vec<Bucket>,
    passes: Vec<Pass<Played>>,
}

/// All memory that an end takes, for so many locks and seats.
fn make_room<N: RoundName>(alloc: Global, locks: usize, seats: usize) -> Result<Room<N>, NoMemory>
    requires { (locks ≤ 256) × (seats ≤ 65536) }
    ensures chambers { IfOk result (λ r. (vec_len r.chambers ≡ 0) × (locks ≤ vec_capacity r.chambers)) }
    ensures buckets { IfOk result (λ r. (r.buckets.items ≡ []) × (vec_len r.buckets ≡ 0) × (locks ≤ vec_capacity r.buckets)) }
    ensures passes { IfOk result (λ r. (r.passes.items ≡ []) × (vec_len r.passes ≡ 0) × (locks + seats ≤ vec_capacity r.passes)) }
{
    Ok(Room {
        chambers: Vec::with_capacity(alloc, locks)?,
        buckets: Vec::with_capacity(alloc, locks)?,
        passes: Vec::with_capacity(alloc, locks + seats)?,
    })
}

impl<N: RoundName> Director<N> {
    /// Takes all seats, in order of their actors, and gives the core and the book. The book holds what
    /// the seats made, without listings, and is sound: the core is the state that it leaves. All memory
    /// is taken first; without it director and seats come back.
    pub fn close(
        self,
        alloc: Global,
        seats: Vec<Seat<N>>,
    ) -> Result<(Core, RoundBook), (Director<N>, Vec<Seat<N>>, NoMemory)>
        requires all { AreSeats 0 (length self.origin.plan.lists) seats.items }
        ensures number { IfOk result (λ r. r.1.number ≡ self.number) }
        ensures sound { IfOk result (λ r. IsSound self.origin.core.state self.origin.plan r.1 r.0.state) }
        ensures steps { IfOk result (λ r. r.0.steps ≡ self.origin.core.steps + length r.1.acts) }
        ensures counts { IfOk result (λ r. HaveNumbers r.1.acts seats.items) }
        ensures whole { IfOk result (λ r. AreAtEnd seats.items → IsWhole self.origin.plan r.1) }
        ensures shown { IfOk result (λ r. r.1.shown ≡ []) }
        ensures err { IfErr result (λ e. (e.0 ≡ self) × (e.1 ≡ seats)) }
    {
        let count = self.locks.len();
        let Ok(room) = make_room(alloc, count, seats.len()) else {
            return Err((self, seats, NoMemory));
        };
        let Director {
            number,
            moment,
            book,
            mut locks,
            of: _,
        } = self;
        let Room {
            chambers,
            buckets,
            mut passes,
        } = room;
        let chambers = unlocked(&mut locks, chambers);
        // No proof can say that the locks stand in order, as they do.
        if !are_in_order(&chambers) {
            locked(chambers, &mut locks);
            let director = Director {
                number,
                moment,
                book,
                locks,
                of: PhantomData,
            };
            return Err((director, seats, NoMemory));
        }
        let workers = seats.len() - OTHERS;
        let buckets = parts_of(chambers, buckets, &mut passes);
        passes_of(seats, &mut passes);
        match book.close(passes) {
            Ok(played) => {
                let mut board = played.into_board();
                let acts = board.take_acts(alloc);
                let book = RoundBook {
                    number,
                    moment,
                    workers: workers as u32,
                    buckets: count as u32,
                    acts: Listed::from_vec(acts),
                    shown: Listed::from_vec(Vec::new(alloc)),
                };
                Ok((Core::from_parts(board, buckets), book))
            }
            Err(_) => unreachable!(),
        }
    }
}
