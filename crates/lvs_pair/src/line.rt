//! A relay: a queue of messages between one sender and one receiver.
ghost use Rattle.std.specs.Prelude.{◌≡◌, ◌++◌};

use crate::drained::Drained;
use crate::ends::{Receiver, Sender};
use crate::rule::{Queue, Rejoin, Take};
use std::marker::Model;

/// A queue of messages between one sender and one receiver, which may be in two threads. Contracts see
/// its identity, and how many messages it has room for.
#[derive(Drop)]
pub struct Relay {
    pub(crate) queue: Queue,
}

impl Model for Relay {
    ghost use Rattle.lvs_pair.specs.Ends.{RelayIs, relay_of};

    ghost Value = { RelayIs };

    ghost view = { λ r. relay_of r.queue };
}

impl Relay {
    /// Ends both ends. What was posted is what was taken, and then what is left.
    pub fn finish(self, sender: Sender, receiver: Receiver) -> Drained
        requires sender { sender.relay ≡ self.id }
        requires receiver { receiver.relay ≡ self.id }
        ensures relay { result.relay ≡ self.id }
        ensures capacity { result.capacity ≡ self.capacity }
        ensures posted { result.posted ≡ sender.posted }
        ensures left { sender.posted ≡ receiver.taken ++ result.left }
    {
        let queue = self.queue;
        let mut place = sender.place;
        queue.absorb::<Rejoin>(&mut place, receiver.place);
        queue.learn_as::<Take>(&mut place);
        Drained { queue, place }
    }
}
