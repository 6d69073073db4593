//! What contracts see of the book of a round: where it begins, and what an act is.
use lvs_core::Core;
use lvs_types::{Change, Noted, RoundPlan};
use std::collections::LinkedList;

/// The core and the plan that a round begins with.
#[derive(Drop)]
pub struct Opened {
    /// The director before the round.
    pub core: Core,
    /// What the round is to do.
    pub plan: RoundPlan,
}

/// An act of the book. No value of it is made.
pub struct Act {
    /// The item, with its actor, its number and the answer.
    pub noted: Noted,
    /// How the item's bucket changed.
    pub change: Change,
    /// Its bucket's lane, where it has a bucket, and its actor's.
    pub lanes: LinkedList<u64>,
}
