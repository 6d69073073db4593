//! The backup of a pair takes messages from the relay, while the master runs and after it.
ghost use Rattle.std.specs.Prelude.{◌≡◌, ◌++◌, [], OnOk, OnErr};
ghost use Rattle.lvs_pair.specs.Learning.{FallsBehind, KeepsUp, Learns, LearnsSome, LearntBy};
ghost use Rattle.lvs_pair.specs.Pairing.{items_of};

use crate::backup::Backup;
use crate::drained::Drained;
use crate::ends::Receiver;
use crate::line::Relay;
use lvs_types::{Bytes, NoMemory, PairEnd};
use std::alloc::Global;
use std::collections::VecDeque;
use std::sync::Wait;
use std::sync::atomic::{AtomicBool, Ordering};
use std::thread;

impl Backup {
    /// Takes a message from the relay and learns it, where there is one.
    fn take_in<R: Wait>(
        &mut self,
        rt: &R,
        alloc: Global,
        relay: &Relay,
        receiver: &mut Receiver,
    ) -> Result<bool, NoMemory>
        requires relay { receiver.old.relay ≡ relay.now.id }
        ensures relay { receiver.new.relay ≡ receiver.old.relay }
        ensures learnt { OnOk result (KeepsUp self.old receiver.old.taken self.new receiver.new.taken) }
        ensures err { OnErr result (FallsBehind self.old receiver.old.taken self.new receiver.new.taken) }
    {
        match receiver.take(rt, relay) {
            Some(message) => {
                self.learn(alloc, &message)?;
                Ok(true)
            }
            None => Ok(false),
        }
    }

    /// Learns what it takes from the relay, until the master has ended or memory is wanting.
    pub(crate) fn follow<R: Wait>(
        mut self,
        rt: &R,
        alloc: Global,
        relay: &Relay,
        mut receiver: Receiver,
        ended: &AtomicBool,
    ) -> (Backup, Receiver, PairEnd)
        requires new { self.learnt.items ≡ [] }
        requires relay { receiver.relay ≡ relay.now.id }
        requires taken { receiver.taken ≡ [] }
        ensures relay { result.1.relay ≡ relay.now.id }
        ensures learnt { LearntBy result.2 self.core.state (items_of result.1.taken) result.0 }
    {
        for _ in rt.forever() {
            match self.take_in(rt, alloc, relay, &mut receiver) {
                Err(_) => return (self, receiver, PairEnd::NoMemory),
                Ok(true) => {}
                Ok(false) => {
                    if ended.load(Ordering::SeqCst) {
                        return (self, receiver, PairEnd::Finished);
                    }
                    thread::yield_now();
                }
            }
        }
        unreachable!()
    }

    /// Learns the messages that are left in the relay.
    fn learn_left<R: Wait>(
        &mut self,
        rt: &R,
        alloc: Global,
        rest: &mut Drained,
    ) -> Result<(), NoMemory>
        ensures relay { rest.new.relay ≡ rest.old.relay }
        ensures capacity { rest.new.capacity ≡ rest.old.capacity }
        ensures posted { rest.new.posted ≡ rest.old.posted }
        ensures left { OnOk result (rest.new.left ≡ []) }
        ensures learnt { OnOk result (Learns self.old self.new (items_of rest.old.left)) }
        ensures err { OnErr result (LearnsSome self.old self.new (items_of rest.old.left)) }
    {
        while let Some(message) = rest.next(rt) {
            self.learn(alloc, &message)?;
        }
        Ok(())
    }

    /// Learns the messages that found no room in the relay.
    fn learn_waiting(
        &mut self,
        alloc: Global,
        waiting: &mut VecDeque<Bytes>,
    ) -> Result<(), NoMemory>
        ensures learnt { OnOk result (Learns self.old self.new (items_of waiting.old.items)) }
        ensures err { OnErr result (LearnsSome self.old self.new (items_of waiting.old.items)) }
    {
        while let Some(message) = waiting.pop_front() {
            self.learn(alloc, &message)?;
        }
        Ok(())
    }

    /// Learns all that it hasn't taken: what is left in the relay, and then what found no room there.
    pub(crate) fn catch_up<R: Wait>(
        &mut self,
        rt: &R,
        alloc: Global,
        rest: &mut Drained,
        waiting: &mut VecDeque<Bytes>,
    ) -> Result<(), NoMemory>
        ensures relay { rest.new.relay ≡ rest.old.relay }
        ensures capacity { rest.new.capacity ≡ rest.old.capacity }
        ensures posted { rest.new.posted ≡ rest.old.posted }
        ensures left { OnOk result (rest.new.left ≡ []) }
        ensures learnt { OnOk result (Learns self.old self.new (items_of (rest.old.left ++ waiting.old.items))) }
        ensures err { OnErr result (LearnsSome self.old self.new (items_of (rest.old.left ++ waiting.old.items))) }
    {
        self.learn_left(rt, alloc, rest)?;
        self.learn_waiting(alloc, waiting)
    }
}
