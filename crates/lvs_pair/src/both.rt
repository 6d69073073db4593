//! Both sides of a pair, until both have ended.
ghost use Rattle.std.specs.Prelude.{◌≡◌, ◌++◌, [], List, ℕ};
ghost use Rattle.lvs_model.specs.State.{State};
ghost use Rattle.lvs_pair.specs.Acting.{coming, HasLed, IsReady};
ghost use Rattle.lvs_pair.specs.Learning.{EndsAs, LearntBy};
ghost use Rattle.lvs_pair.specs.Pairing.{items_of};

use crate::backup::Backup;
use crate::drained::Drained;
use crate::ends::Receiver;
use crate::line::Relay;
use crate::master::Master;
use lvs_types::{Bytes, MasterStep, PairEnd};
use std::alloc::Global;
use std::collections::VecDeque;
use std::sync::Wait;
use std::sync::atomic::{AtomicBool, Ordering};
use std::thread::{Threads, join};

/// The master takes its steps, and then says that it has ended.
fn lead<R: Wait>(
    rt: &R,
    alloc: Global,
    relay: &Relay,
    master: Master,
    steps: &[MasterStep],
    ended: &AtomicBool,
) -> (Master, PairEnd)
    requires ready { IsReady relay.now steps.now master }
    ensures led { HasLed master.core.state (coming master.outbox) steps.now relay.now result.0 result.1 }
    ensures counts { result.0.outbox.counts ≡ master.outbox.counts }
{
    let led = master.take_steps(rt, alloc, relay, steps);
    ended.store(true, Ordering::SeqCst);
    led
}

/// Runs both. The backup begins last where no thread can be made, so that it never waits for a master
/// that hasn't begun.
pub(crate) fn run_both<R: Threads + Wait + Sync>(
    rt: &R,
    alloc: Global,
    relay: &Relay,
    master: Master,
    steps: &[MasterStep],
    backup: Backup,
    receiver: Receiver,
) -> ((Backup, Receiver, PairEnd), (Master, PairEnd))
    requires ready { IsReady relay.now steps.now master }
    requires new { backup.learnt.items ≡ [] }
    requires relay { receiver.relay ≡ relay.now.id }
    requires taken { receiver.taken ≡ [] }
    ensures relay { result.0.1.relay ≡ relay.now.id }
    ensures learnt { LearntBy result.0.2 backup.core.state (items_of result.0.1.taken) result.0.0 }
    ensures led { HasLed master.core.state (coming master.outbox) steps.now relay.now result.1.0 result.1.1 }
    ensures counts { result.1.0.outbox.counts ≡ master.outbox.counts }
{
    let ended = AtomicBool::new(false);
    let ended = &ended;
    join(
        rt,
        move || backup.follow(rt, alloc, relay, receiver, ended),
        move || -> (Master, PairEnd)
            requires { IsReady relay.now steps.now master }
            ensures led { HasLed master.core.state (coming master.outbox) steps.entry.now relay.entry.now result.0 result.1 }
            ensures counts { result.0.outbox.counts ≡ master.outbox.counts }
        { lead(rt, alloc, relay, master, steps, ended) },
    )
}

/// The backup learns what it hasn't taken, where both came to their end.
pub(crate) fn end_both<R: Wait>(
    rt: &R,
    alloc: Global,
    led: PairEnd,
    followed: PairEnd,
    backup: &mut Backup,
    rest: &mut Drained,
    waiting: &mut VecDeque<Bytes>,
) -> PairEnd
    ensures relay { rest.new.relay ≡ rest.old.relay }
    ensures capacity { rest.new.capacity ≡ rest.old.capacity }
    ensures posted { rest.new.posted ≡ rest.old.posted }
    ensures ended { EndsAs led followed rest.new.left result }
    ensures learnt { (s : State) (taken : List (List ℕ)) → LearntBy followed s (items_of taken) backup.old → LearntBy result s (items_of (taken ++ (rest.old.left ++ waiting.old.items))) backup.new }
{
    match (led, followed) {
        (PairEnd::Finished, PairEnd::Finished) => match backup.catch_up(rt, alloc, rest, waiting) {
            Ok(()) => PairEnd::Finished,
            Err(_) => PairEnd::NoMemory,
        },
        _ => PairEnd::NoMemory,
    }
}
