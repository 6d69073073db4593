//! A master and its backup run beside each other.
ghost use Rattle.std.specs.Prelude.{◌≡◌, ◌<◌, ◌^◌, [], All, length};
ghost use Rattle.lvs_pair.specs.Following.{HasTakenOver};
ghost use Rattle.lvs_pair.specs.Pairing.{IsStepInRange};
ghost use Rattle.lvs_pair.specs.Playing.{HasPlayed};

use crate::backup::Backup;
use crate::both::{end_both, run_both};
use crate::drained::Drained;
use crate::ends::{Receiver, Sender};
use crate::line::Relay;
use crate::master::Master;
use crate::outbox::Outbox;
use lvs_core::Core;
use lvs_types::{Bytes, Item, Listed, MasterAct, MasterStep, PairEnd, Reply};
use std::alloc::Global;
use std::sync::Wait;
use std::thread::Threads;

/// Two directors: a master with its steps and what it did, and a backup with what it learnt.
#[derive(Drop)]
pub struct Pair {
    pub master: Core,
    pub steps: Listed<MasterStep>,
    /// One for each step that was taken, in order.
    pub acts: Listed<MasterAct>,
    pub backup: Core,
    /// Each item with its reply, in order.
    pub learnt: Listed<(Item, Reply)>,
    /// How often each message of the master arrives, in order of sending; the last count holds for all
    /// that follow. A count of 0 is a loss.
    pub counts: Bytes,
}

/// Runs a master and its backup beside each other: the master takes its steps, and its messages go to
/// the backup through the relay, each as often as its count says. The backup learns them in order. It
/// may wait. For want of memory on either side both stop, and what was done until then stands.
pub fn run_pair<R: Threads + Wait + Sync>(
    rt: &R,
    alloc: Global,
    pair: Pair,
    relay: Relay,
    sender: Sender,
    receiver: Receiver,
) -> (Pair, PairEnd, Drained)
    requires sender { sender.relay ≡ relay.id }
    requires receiver { receiver.relay ≡ relay.id }
    requires posted { sender.posted ≡ [] }
    requires taken { receiver.taken ≡ [] }
    requires acts { pair.acts ≡ [] }
    requires learnt { pair.learnt ≡ [] }
    requires counts { 0 < length pair.counts }
    requires in_range { All IsStepInRange pair.steps }
    requires few { length pair.steps < 2 ^ 40 }
    requires young { pair.master.steps < 2 ^ 40 }
    requires young_backup { pair.backup.steps < 2 ^ 40 }
    ensures relay { result.2.relay ≡ relay.id }
    ensures capacity { result.2.capacity ≡ relay.capacity }
    ensures steps { result.0.steps ≡ pair.steps }
    ensures counts { result.0.counts ≡ pair.counts }
    ensures played { HasPlayed pair relay result.0 result.2 result.1 }
    ensures takeover { HasTakenOver result.0.learnt result.0.backup.state }
{
    let master = Master {
        core: pair.master,
        acts: pair.acts.into_vec(),
        outbox: Outbox::new(alloc, sender, pair.counts),
    };
    let backup = Backup {
        core: pair.backup,
        learnt: pair.learnt.into_vec(),
    };
    let steps = pair.steps;
    let (followed, led) = run_both(
        rt,
        alloc,
        &relay,
        master,
        steps.as_slice(),
        backup,
        receiver,
    );
    let (mut backup, receiver, followed) = followed;
    let (master, led) = led;
    let mut outbox = master.outbox;
    let mut rest = relay.finish(outbox.sender, receiver);
    let end = end_both(
        rt,
        alloc,
        led,
        followed,
        &mut backup,
        &mut rest,
        &mut outbox.waiting,
    );
    let pair = Pair {
        master: master.core,
        steps,
        acts: Listed::from_vec(master.acts),
        backup: backup.core,
        learnt: Listed::from_vec(backup.learnt),
        counts: outbox.counts,
    };
    (pair, end, rest)
}
