//! Threads over one book.
ghost use Rattle.std.specs.Prelude.{◌≡◌, ◌<◌};
ghost use Rattle.lvs_book.specs.Passes.{opened};

use crate::locked::{BookName, Shared};
use crate::notes::{Enter, Note, Notes, Refuse};
use crate::{Book, Journal, Pass};
use lvs_types::NoMemory;
use std::alloc::Global;
use std::marker::Brand;
use std::snapshot::Snapshot;
use std::sync::{Mutex, Wait};
use std::test::Fail;
use std::thread;
use std::thread::Threads;

/// A note of the lane alone.
fn enter<R: Wait>(
    rt: &R,
    book: &Book<Notes>,
    own: &mut Pass<Notes>,
    lane: u64,
    number: u64,
) -> Result<(), NoMemory>
    requires { (book.now.id ≡ own.old.book) × (own.old.lane ≡ lane) }
    ensures { (own.new.book ≡ own.old.book) × (own.new.lane ≡ own.old.lane) }
{
    let note = Note {
        lane,
        beside: None,
        number,
    };
    let mut work = Enter {
        note,
        own: Snapshot::of(own),
        shared: Snapshot::of(own),
    };
    book.commit(rt, own, &mut work)
}

/// A hundred notes of the lane, the odd ones with lane 2 beside.
fn enter_hundred<N: BookName, R: Wait>(
    rt: &R,
    book: &Book<Notes>,
    shared: &Mutex<Shared<N>>,
    mut own: Pass<Notes>,
    lane: u64,
) -> (Pass<Notes>, bool)
    requires { (book.now.id ≡ N.book) × (own.book ≡ N.book) × (own.lane ≡ lane) × (lane < 2) }
    ensures { (result.0.book ≡ own.book) × (result.0.lane ≡ own.lane) }
{
    for number in 0..50 {
        if enter(rt, book, &mut own, lane, 2 * number).is_err() {
            return (own, false);
        }
        let mut locked = shared.lock(rt);
        let both = locked.enter_both(rt, book, &mut own, lane, 2 * number + 1);
        if both.is_err() {
            return (own, false);
        }
    }
    (own, true)
}

/// Two threads, each with its own lane and with lane 2.
fn enter_all<N: BookName + Send + Sync, R: Threads + Wait + Sync>(
    rt: &R,
    book: Book<Notes>,
    mut passes: Vec<Pass<Notes>>,
) -> Option<Notes>
    requires { (book.id ≡ N.book) × (book.lanes ≡ 3) × (passes.items ≡ opened N.book book.origin 0 3) }
{
    let (Some(third), Some(second), Some(first)) = (passes.pop(), passes.pop(), passes.pop()) else {
        return None;
    };
    let shared: Mutex<Shared<N>> = Mutex::new(Shared::new(third));
    let lock = &shared;
    let of = &book;
    let (one, two) = thread::join(
        rt,
        move ||
            requires { (of.now.id ≡ N.book) × (first.book ≡ N.book) × (first.lane ≡ 0) }
            ensures { (result.0.book ≡ first.book) × (result.0.lane ≡ first.lane) }
        { enter_hundred(rt, of, lock, first, 0) },
        move ||
            requires { (of.now.id ≡ N.book) × (second.book ≡ N.book) × (second.lane ≡ 1) }
            ensures { (result.0.book ≡ second.book) × (result.0.lane ≡ second.lane) }
        { enter_hundred(rt, of, lock, second, 1) },
    );
    let third = shared.into_inner().into_pass();
    if passes.push(one.0).is_err() || !one.1 {
        return None;
    }
    if passes.push(two.0).is_err() || !two.1 {
        return None;
    }
    if passes.push(third).is_err() {
        return None;
    }
    book.close(passes).ok()
}

/// A book of three lanes, and what it holds once two threads have entered their notes.
fn entered<R: Threads + Wait + Sync>(rt: &R, alloc: Global) -> Option<Notes> {
    match Book::begin(alloc, Notes::new(alloc, 7), 3) {
        Ok((book, passes)) => enter_all::<Brand, R>(rt, book, passes),
        Err(_) => None,
    }
}

/// Whether the notes of the lane have the numbers from 0 to 99, in order.
fn is_hundred_in_order(notes: &[Note], lane: u64) -> bool {
    let mut next = 0;
    for note in notes {
        if note.lane == lane {
            if next >= 100 || note.number != next {
                return false;
            }
            next += 1;
        }
    }
    next == 100
}

#[test]
fn two_threads_enter_a_hundred_notes_each(rt: HostRuntime) -> Result<(), Fail> {
    let done = entered(&rt, rt.alloc()).ok_or("no memory")?;
    assert_eq!(rt; done.count(), 200);
    assert!(rt; is_hundred_in_order(&done.notes, 0));
    assert!(rt; is_hundred_in_order(&done.notes, 1));
    let beside = done
        .notes
        .iter()
        .filter(|note| note.beside == Some(2))
        .count();
    assert_eq!(rt; beside, 100);
    Ok(())
}

/// A work that finds no memory, between two that add a note.
fn refused_between<R: Wait>(rt: &R, alloc: Global) -> Option<(bool, Notes)> {
    match Book::begin(alloc, Notes::new(alloc, 7), 1) {
        Ok((book, mut passes)) => {
            let mut own = passes.pop()?;
            enter(rt, &book, &mut own, 0, 4).ok()?;
            let mut work = Refuse {
                lane: 0,
                own: Snapshot::of(&own),
            };
            let refused = book.commit(rt, &mut own, &mut work).is_err();
            enter(rt, &book, &mut own, 0, 5).ok()?;
            passes.push(own).ok()?;
            let notes = book.close(passes).ok()?;
            Some((refused, notes))
        }
        Err(_) => None,
    }
}

#[test]
fn a_refused_work_leaves_the_book(rt: HostRuntime) -> Result<(), Fail> {
    let (refused, done) = refused_between(&rt, rt.alloc()).ok_or("no memory")?;
    assert!(rt; refused);
    assert_eq!(rt; done.count(), 2);
    assert_eq!(rt; done.notes[0].number, 4);
    assert_eq!(rt; done.notes[1].number, 5);
    Ok(())
}
