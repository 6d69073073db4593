//! A gate at which tests hold the actors of a round.

/// It is called before each event of a round, so that a test can hold an actor there.
pub trait Gate {
    /// The actor comes to the item of that number in its list.
    fn at(&self, actor: u32, number: u64);
}

/// A gate that holds nobody.
#[derive(Clone, Copy, Debug, PartialEq, Eq)]
pub struct OpenGate;

impl Gate for OpenGate {
    fn at(&self, _actor: u32, _number: u64) {}
}
