//! What the master of a pair does, and how a pair ends.
use crate::{Item, Reply, Snapshot};

/// What the master of a pair is to do next.
#[derive(Debug, PartialEq, Drop)]
pub enum MasterStep {
    /// It takes this item.
    Do(Item),
    /// It shows its tables.
    Look,
}

/// What the master of a pair did.
#[derive(Debug, PartialEq, Drop)]
pub enum MasterAct {
    /// It answered the item of a `Do`.
    Replied(Reply),
    /// It showed these tables at a `Look`.
    Looked(Snapshot),
}

/// How a pair ended.
#[derive(Clone, Copy, Debug, PartialEq, Eq)]
pub enum PairEnd {
    /// The master took all its steps, and the backup learnt all that was delivered.
    Finished,
    /// There was no memory on one of the two sides; what was done until then stands.
    NoMemory,
}
