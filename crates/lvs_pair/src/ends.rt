//! The two ends of a relay: one posts messages, and the other takes them.
ghost use Rattle.std.specs.Prelude.{◌≡◌, ◌≤◌, ◌++◌, ◌∷◌, [], MatchOption, MatchResult, length};

use crate::line::Relay;
use crate::rule::{Place, Post, Take};
use lvs_types::Bytes;
use std::marker::Model;
use std::sync::Wait;

/// The end of one relay that posts. It has no bytes. Contracts see the identity of its relay, and what
/// was posted.
#[derive(Drop)]
pub struct Sender {
    pub(crate) place: Place,
}

impl Model for Sender {
    ghost use Rattle.lvs_pair.specs.Ends.{SenderIs, sender_of, IsSenderAt};

    ghost Value = { SenderIs };

    ghost view = { λ s. sender_of s.place };

    ghost invariant = { λ s. IsSenderAt s.place };
}

impl Sender {
    /// Posts a message. It may wait. The message comes back where the queue was full at a step of the
    /// call, so that at least as many messages were posted as it has room for.
    pub fn post<R: Wait>(&mut self, rt: &R, relay: &Relay, message: Bytes) -> Result<(), Bytes>
        requires relay { self.old.relay ≡ relay.now.id }
        ensures relay { self.new.relay ≡ self.old.relay }
        ensures posted { MatchResult result (λ _. self.new.posted ≡ self.old.posted ++ message ∷ []) (λ back. (back ≡ message) × (self.new.posted ≡ self.old.posted) × (relay.now.capacity ≤ length self.old.posted)) }
    {
        relay.queue.push_as::<Post, R>(rt, &mut self.place, message)
    }
}

/// The end of one relay that takes. It has no bytes. Contracts see the identity of its relay, and what
/// was taken.
#[derive(Drop)]
pub struct Receiver {
    pub(crate) place: Place,
}

impl Model for Receiver {
    ghost use Rattle.lvs_pair.specs.Ends.{ReceiverIs, receiver_of, IsReceiverAt};

    ghost Value = { ReceiverIs };

    ghost view = { λ r. receiver_of r.place };

    ghost invariant = { λ r. IsReceiverAt r.place };
}

impl Receiver {
    /// Takes the oldest message. It may wait. There is none where the queue was empty at a step of the
    /// call.
    pub fn take<R: Wait>(&mut self, rt: &R, relay: &Relay) -> Option<Bytes>
        requires relay { self.old.relay ≡ relay.now.id }
        ensures relay { self.new.relay ≡ self.old.relay }
        ensures taken { MatchOption result (self.new.taken ≡ self.old.taken) (λ message. self.new.taken ≡ self.old.taken ++ message ∷ []) }
    {
        relay.queue.pop_as::<Take, R>(rt, &mut self.place)
    }
}
