//! The messages that a master sends: each goes into the relay as often as its count says, or waits for
//! room there.
ghost use Rattle.std.specs.Prelude.{◌≡◌, ◌≤◌, ◌<◌, ◌++◌, ◌∷◌, [], length, replicate, slice_index, OnOk, OnErr};
ghost use Rattle.lvs_model.specs.Pairs.{delivered, later_counts};
ghost use Rattle.lvs_pair.specs.Acting.{handed, coming, IsOutboxOf, WaitsForRoom};
ghost use Rattle.lvs_pair.specs.Pairing.{counts_after, IsStartOf};

use crate::ends::Sender;
use crate::line::Relay;
use lvs_types::{Bytes, NoMemory};
use std::alloc::Global;
use std::collections::VecDeque;
use std::sync::Wait;

/// What a master sends. The messages that wait are posted before later ones.
#[derive(Drop)]
pub(crate) struct Outbox {
    pub sender: Sender,
    pub waiting: VecDeque<Bytes>,
    /// How often each message is sent; the last holds for all that follow.
    pub counts: Bytes,
    /// The place of the next message's count.
    pub at: usize,
}

/// Posts the messages that wait, the oldest first, until the relay has no room.
fn post_waiting<R: Wait>(rt: &R, relay: &Relay, sender: &mut Sender, waiting: &mut VecDeque<Bytes>)
    requires relay { sender.old.relay ≡ relay.now.id }
    ensures relay { sender.new.relay ≡ sender.old.relay }
    ensures order { sender.new.posted ++ waiting.new.items ≡ sender.old.posted ++ waiting.old.items }
    ensures room { WaitsForRoom relay.now.capacity sender.new.posted waiting.new.items }
{
    while let Some(message) = waiting.pop_front() {
        if let Err(back) = sender.post(rt, relay, message) {
            waiting.push_front_reserved(back);
            return;
        }
    }
}

/// Hands a message in: it is posted after those that wait, or waits.
fn hand_in<R: Wait>(
    rt: &R,
    relay: &Relay,
    sender: &mut Sender,
    waiting: &mut VecDeque<Bytes>,
    message: Bytes,
) -> Result<(), NoMemory>
    requires relay { sender.old.relay ≡ relay.now.id }
    ensures relay { sender.new.relay ≡ sender.old.relay }
    ensures order { OnOk result (sender.new.posted ++ waiting.new.items ≡ (sender.old.posted ++ waiting.old.items) ++ message ∷ []) }
    ensures room { OnOk result (WaitsForRoom relay.now.capacity sender.new.posted waiting.new.items) }
    ensures err { OnErr result (sender.new.posted ++ waiting.new.items ≡ sender.old.posted ++ waiting.old.items) }
{
    waiting.push_back(message)?;
    post_waiting(rt, relay, sender, waiting);
    Ok(())
}

/// Hands so many copies of a message in.
fn hand_in_copies<R: Wait>(
    rt: &R,
    alloc: Global,
    relay: &Relay,
    sender: &mut Sender,
    waiting: &mut VecDeque<Bytes>,
    message: &[u8],
    count: u8,
) -> Result<(), NoMemory>
    requires relay { sender.old.relay ≡ relay.now.id }
    requires room { WaitsForRoom relay.now.capacity sender.old.posted waiting.old.items }
    ensures relay { sender.new.relay ≡ sender.old.relay }
    ensures order { OnOk result (sender.new.posted ++ waiting.new.items ≡ (sender.old.posted ++ waiting.old.items) ++ replicate count message.now) }
    ensures room { OnOk result (WaitsForRoom relay.now.capacity sender.new.posted waiting.new.items) }
    ensures err { OnErr result (IsStartOf (sender.new.posted ++ waiting.new.items) ((sender.old.posted ++ waiting.old.items) ++ replicate count message.now)) }
{
    for _copy in 0..count {
        let copy = Bytes::copied(alloc, message)?;
        hand_in(rt, relay, sender, waiting, copy)?;
    }
    Ok(())
}

impl Outbox {
    /// An outbox that has sent nothing yet.
    pub(crate) fn new(alloc: Global, sender: Sender, counts: Bytes) -> Outbox
        ensures sender { result.sender ≡ sender }
        ensures waiting { result.waiting.items ≡ [] }
        ensures counts { result.counts ≡ counts }
        ensures at { result.at ≡ 0 }
    {
        Outbox {
            sender,
            waiting: VecDeque::new(alloc),
            counts,
            at: 0,
        }
    }

    /// Sends a message as often as its count says.
    fn send<R: Wait>(
        &mut self,
        rt: &R,
        alloc: Global,
        relay: &Relay,
        message: &Bytes,
    ) -> Result<(), NoMemory>
        requires of { IsOutboxOf relay.now self.old }
        ensures of { OnOk result (IsOutboxOf relay.now self.new) }
        ensures relay { self.new.sender.relay ≡ self.old.sender.relay }
        ensures counts { self.new.counts ≡ self.old.counts }
        ensures handed { OnOk result (handed self.new ≡ handed self.old ++ replicate (slice_index (coming self.old) 0) message.now) }
        ensures coming { OnOk result (coming self.new ≡ later_counts (coming self.old)) }
        ensures err { OnErr result (IsStartOf (handed self.new) (handed self.old ++ replicate (slice_index (coming self.old) 0) message.now)) }
    {
        let counts = self.counts.as_slice();
        let count = counts[self.at];
        let is_last = self.at + 1 == counts.len();
        hand_in_copies(
            rt,
            alloc,
            relay,
            &mut self.sender,
            &mut self.waiting,
            message.as_slice(),
            count,
        )?;
        if !is_last {
            self.at += 1;
        }
        Ok(())
    }

    /// Sends messages, in order.
    pub(crate) fn send_all<R: Wait>(
        &mut self,
        rt: &R,
        alloc: Global,
        relay: &Relay,
        messages: &[Bytes],
    ) -> Result<(), NoMemory>
        requires of { IsOutboxOf relay.now self.old }
        ensures of { OnOk result (IsOutboxOf relay.now self.new) }
        ensures relay { self.new.sender.relay ≡ self.old.sender.relay }
        ensures counts { self.new.counts ≡ self.old.counts }
        ensures handed { OnOk result (handed self.new ≡ handed self.old ++ delivered messages.now (coming self.old)) }
        ensures coming { OnOk result (coming self.new ≡ counts_after messages.now (coming self.old)) }
        ensures err { OnErr result (IsStartOf (handed self.new) (handed self.old ++ delivered messages.now (coming self.old))) }
    {
        for message in messages {
            self.send(rt, alloc, relay, message)?;
        }
        Ok(())
    }
}
