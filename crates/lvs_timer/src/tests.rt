//! Due ids at their moment, and against those of a plain list.
ghost use Rattle.std.specs.Prelude.{◌≡◌, []};

use crate::Timers;
use lvs_types::{NoMemory, Steps};
use std::alloc::Global;
use std::marker::Brand;
use std::sync::ledger::{Blank, Ledger};
use std::test::Fail;

#[test]
fn tells_an_id_that_is_due_exactly_now(rt: HostRuntime) -> Result<(), Fail> {
    let alloc = rt.alloc();
    let mut timers = Timers::new(alloc)?;
    timers.reserve()?;
    timers.arm(7, 60);
    assert_eq!(rt; timers.due(alloc, 59)?.len(), 0);
    assert_eq!(rt; timers.due(alloc, 60)?.as_slice(), [7].as_slice());
    timers.disarm(7, 60);
    assert_eq!(rt; timers.due(alloc, 61)?.len(), 0);
    Ok(())
}

#[test]
fn keeps_ids_of_one_list_apart(rt: HostRuntime) -> Result<(), Fail> {
    let alloc = rt.alloc();
    let mut timers = Timers::new(alloc)?;
    timers.reserve()?;
    timers.arm(33, 60);
    timers.reserve()?;
    timers.arm(1, 60);
    timers.reserve()?;
    timers.arm(17, 50);
    assert_eq!(rt; timers.due(alloc, 60)?.as_slice(), [1, 17, 33].as_slice());
    timers.disarm(1, 60);
    assert_eq!(rt; timers.due(alloc, 60)?.as_slice(), [17, 33].as_slice());
    assert_eq!(rt; timers.due(alloc, 59)?.as_slice(), [17].as_slice());
    Ok(())
}

/// The deadline of an id: the ids of one list have it in another order.
fn deadline_of(id: u64) -> u64 {
    id % 97 * 29 % 47
}

fn arm_many(timers: &mut Timers, count: u64) -> Result<(), NoMemory>
    requires { timers.old.timers ≡ [] }
{
    for id in 0..count {
        timers.reserve()?;
        timers.arm(id, deadline_of(id));
    }
    Ok(())
}

fn count_due<L: Ledger>(
    alloc: Global,
    timers: &Timers,
    now: u64,
    blank: Blank,
) -> Result<Vec<u64>, NoMemory>
    requires one_part { blank.parts ≡ 1 }
    requires name { blank.name ≡ L.name }
    requires parts { blank.parts ≡ L.parts }
{
    let mut steps = Steps::<L>::new(blank);
    timers.due_counted(alloc, now, &mut steps)
}

#[test]
fn agrees_with_a_plain_list(rt: HostRuntime) -> Result<(), Fail> {
    let alloc = rt.alloc();
    let mut timers = Timers::new(alloc)?;
    arm_many(&mut timers, 400)?;
    for now in 0..50 {
        let due = count_due::<Brand>(alloc, &timers, now, Blank::new(1))?;
        let plain: Vec<u64> = (0..400)
            .filter(|id| deadline_of(*id) <= now)
            .collect(alloc)?;
        assert_eq!(rt; due.as_slice(), plain.as_slice(), "at {now}");
    }
    Ok(())
}
