//! What is left in a relay whose two ends have ended.
ghost use Rattle.std.specs.Prelude.{◌≡◌, ◌∷◌, [], MatchOption};

use crate::rule::{Place, Queue, Take};
use lvs_types::Bytes;
use std::marker::Model;
use std::sync::Wait;

/// A relay whose two ends have ended. Contracts see its identity, its capacity, what was posted, and
/// what is left.
#[derive(Drop)]
pub struct Drained {
    pub(crate) queue: Queue,
    pub(crate) place: Place,
}

impl Model for Drained {
    ghost use Rattle.lvs_pair.specs.Ends.{DrainedIs, drained_of, IsDrainedAt};

    ghost Value = { DrainedIs };

    ghost view = { λ d. drained_of d.queue d.place };

    ghost invariant = { λ d. IsDrainedAt d.queue d.place };
}

impl Drained {
    /// Takes the oldest message that is left. It may wait. There is none exactly where none is left.
    pub fn next<R: Wait>(&mut self, rt: &R) -> Option<Bytes>
        ensures relay { self.new.relay ≡ self.old.relay }
        ensures capacity { self.new.capacity ≡ self.old.capacity }
        ensures posted { self.new.posted ≡ self.old.posted }
        ensures left { MatchOption result ((self.old.left ≡ []) × (self.new.left ≡ [])) (λ message. self.old.left ≡ message ∷ self.new.left) }
    {
        self.queue.pop_as::<Take, R>(rt, &mut self.place)
    }
}
