//! Gates for tests that hold actors until others have come.
use boxcar::Vec;
use lvs_outside::Gate;
use lvs_types::NoMemory;
use std::alloc::Global;
use std::sync::Wait;
use std::sync::atomic::{AtomicBool, Ordering};
use std::thread;

/// After so many looks a hold gives up.
const LOOKS: u32 = 10_000_000;

/// The fewest looks for which the second gate holds a worker.
const LONG: u32 = 100_000;

/// An actor, at an item of its list.
#[derive(Clone, Copy, Debug, PartialEq, Eq, Drop)]
pub(crate) struct Call {
    actor: u32,
    number: u64,
}

/// The calls of a gate.
#[derive(Drop)]
pub(crate) struct Calls<'a, R> {
    rt: &'a R,
    calls: Vec<Call>,
    failed: AtomicBool,
}

impl<'a, R: Wait> Calls<'a, R> {
    pub(crate) fn new(rt: &'a R, alloc: Global) -> Result<Calls<'a, R>, NoMemory> {
        Ok(Calls {
            rt,
            calls: Vec::new(alloc)?,
            failed: AtomicBool::new(false),
        })
    }

    /// Whether a hold gave up, or an actor came that should have been held.
    pub(crate) fn has_failed(&self) -> bool {
        self.failed.load(Ordering::SeqCst)
    }

    fn fail(&self) {
        self.failed.store(true, Ordering::SeqCst);
    }

    fn add(&self, actor: u32, number: u64) {
        if self.calls.push(self.rt, Call { actor, number }).is_err() {
            self.fail();
        }
    }

    /// How often the actor came to the item of that number.
    fn count(&self, actor: u32, number: u64) -> u64 {
        let call = Call { actor, number };
        let mut count = 0u64;
        for (_, other) in self.calls.iter() {
            if *other == call {
                count = count.saturating_add(1);
            }
        }
        count
    }

    /// Holds until the actor has come to the item of that number so often.
    fn hold(&self, actor: u32, number: u64, times: u64) {
        for _ in 0..LOOKS {
            if self.count(actor, number) >= times {
                return;
            }
            thread::yield_now();
        }
        self.fail();
    }
}

/// Holds each of two workers inside its bucket until the other has come there too, and the second worker
/// until the fourth has gone on to its next packet, in the same bucket.
#[derive(Drop)]
pub(crate) struct BothInside<'a, R> {
    pub(crate) calls: Calls<'a, R>,
}

impl<R: Wait> Gate for BothInside<'_, R> {
    fn at(&self, actor: u32, number: u64) {
        self.calls.add(actor, number);
        match (actor, number) {
            (4, 0) => self.calls.hold(6, 1, 1),
            (6, 0) => self.calls.hold(4, 0, 1),
            _ => {}
        }
    }
}

/// Holds the second worker inside bucket 2 while the clock, in the second round, should go on from the
/// sweep of bucket 1 to that of bucket 2, and can't.
#[derive(Drop)]
pub(crate) struct OneInside<'a, R> {
    pub(crate) calls: Calls<'a, R>,
}

impl<R: Wait> OneInside<'_, R> {
    fn hold_worker(&self) {
        self.calls.hold(0, 1, 2);
        for _ in 0..LONG {
            if self.calls.count(0, 2) > 1 {
                return self.calls.fail();
            }
            thread::yield_now();
        }
    }
}

impl<R: Wait> Gate for OneInside<'_, R> {
    fn at(&self, actor: u32, number: u64) {
        self.calls.add(actor, number);
        match (actor, number) {
            (4, 0) => self.hold_worker(),
            (0, 1) if self.calls.count(0, 1) > 1 => self.calls.hold(4, 0, 1),
            _ => {}
        }
    }
}
