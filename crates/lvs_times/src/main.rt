//! Measures what the chains and the due lists of one bucket cost: without a word it puts in, finds
//! and sweeps a thousand entries and tells how many; with a number it takes so many and tells times.
#![tactic(auto)]

mod filling;
mod load;
mod looking;
mod sweeping;

ghost use Rattle.std.specs.Prelude.{◌≡◌, MatchResult, Ok, ⊤};

use crate::filling::{arm_all, put_all};
use crate::load::{Load, Timeouts};
use crate::looking::{count_found, count_walked};
use crate::sweeping::sweep_all;
use lvs_entries::Entries;
use lvs_timer::Timers;
use lvs_types::NoMemory;
use std::time::{Duration, Instant};
use std::{env, io};

/// How many entries are put in where no number is given.
const FEW: u32 = 1000;

/// How many entries the program's first word asks for, if it is a number.
fn wanted(rt: &HostRuntime) -> io::Result<Option<u32>> {
    let Some(word) = env::args(rt)?.nth(1) else {
        return Ok(None);
    };
    Ok(word.parse().ok())
}

/// Want of memory as an error of the program.
fn remembered<T: Drop>(made: Result<T, NoMemory>) -> io::Result<T>
    ensures { MatchResult result (λ t. made ≡ Ok t) (λ _. ⊤) }
{
    match made {
        Ok(made) => Ok(made),
        Err(_) => Err(io::ErrorKind::OutOfMemory.into()),
    }
}

/// How long arming and sweeping took, and how many entries were swept.
#[derive(Clone, Copy, Debug)]
struct Swept {
    armed: Duration,
    swept: Duration,
    count: usize,
}

/// Arms and sweeps so many entries, whose deadlines come in an order of their own.
fn sweep_load(rt: &HostRuntime, count: u32, timeouts: Timeouts) -> io::Result<Swept> {
    let alloc = rt.alloc();
    let load = Load {
        count: count.max(1),
        timeouts,
    };
    let mut entries = remembered(Entries::new(alloc))?;
    let mut timers = remembered(Timers::new(alloc))?;
    remembered(put_all(&mut entries, load.count))?;

    let start = Instant::now(rt)?;
    remembered(arm_all(&mut timers, load))?;
    let armed = start.elapsed(rt)?;

    let start = Instant::now(rt)?;
    let count = remembered(sweep_all(alloc, &mut entries, &mut timers, load))?;
    let swept = start.elapsed(rt)?;
    Ok(Swept {
        armed,
        swept,
        count,
    })
}

/// Tells how many entries of such timeouts were swept, and how long it took where that is wanted.
fn tell_load(rt: &HostRuntime, count: u32, timeouts: Timeouts, timed: bool) -> io::Result<()> {
    let load = sweep_load(rt, count, timeouts)?;
    println!(rt; "timeouts {:?}: {} swept", timeouts, load.count)?;
    if timed {
        println!(rt;
            "armed {} us, swept {} us",
            load.armed.as_micros(),
            load.swept.as_micros()
        )?;
    }
    Ok(())
}

/// Puts entries in and looks them up, in their chains and by walks.
fn tell_looks(rt: &HostRuntime, count: u32, timed: bool) -> io::Result<()> {
    let alloc = rt.alloc();
    let mut entries = remembered(Entries::new(alloc))?;

    let start = Instant::now(rt)?;
    remembered(put_all(&mut entries, count))?;
    let put = start.elapsed(rt)?;

    let start = Instant::now(rt)?;
    let found = count_found(&entries, count);
    let looked = start.elapsed(rt)?;

    let plain = remembered(entries.all(alloc))?;
    let start = Instant::now(rt)?;
    let walked = count_walked(&plain, count);
    let walk = start.elapsed(rt)?;

    println!(rt; "{count} entries: {found} found in chains, {walked} by walks")?;
    if timed {
        println!(rt;
            "put in {} us, looked up in chains {} us, by walks {} us",
            put.as_micros(),
            looked.as_micros(),
            walk.as_micros()
        )?;
    }
    Ok(())
}

fn main(rt: HostRuntime) -> io::Result<()> {
    let wanted = wanted(&rt)?;
    let count = wanted.unwrap_or(FEW).max(1);
    let timed = wanted.is_some();
    tell_looks(&rt, count, timed)?;
    tell_load(&rt, count, Timeouts::One, timed)?;
    tell_load(&rt, count, Timeouts::Two, timed)?;
    tell_load(&rt, count, Timeouts::Ten, timed)
}
