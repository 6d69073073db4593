//! What a pass knows of its book. Proofs alone speak of it: no value of these types is made.
use std::collections::LinkedList;

/// Where a pass stands.
pub enum Phase<A> {
    /// It has no ticket.
    Out,
    /// It waits with this ticket.
    Waiting(u64),
    /// It has the turn: the ticket, and the acts that it found.
    Turn(u64, LinkedList<A>),
    /// It has counted its act: the ticket, the acts that it found, and the act that it added.
    Committed(u64, LinkedList<A>, A),
}

/// A lane, with the book's origin and the acts that name the lane.
pub struct Lane<O, A> {
    pub number: u64,
    pub origin: O,
    pub acts: LinkedList<A>,
}

/// Between two calls a pass has one lane; within a call it may have several.
pub struct View<O, A> {
    pub phase: Phase<A>,
    pub lanes: LinkedList<Lane<O, A>>,
}
