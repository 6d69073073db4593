//! How the acts of a round are ordered.

/// The order in which a round's acts stand.
#[derive(Clone, Copy, Debug, PartialEq, Eq)]
pub enum ActOrder {
    /// The one order of `serial`.
    Serial,
    /// Any order in which each actor's acts stand in the order of its list.
    Free,
}
