//! A master, a backup and the takeover: messages go from one director to another through a relay.
#![tactic(auto)]

mod backup;
mod begin;
mod both;
mod drained;
mod ends;
mod follow;
mod line;
mod master;
mod outbox;
mod pair;
mod rule;
#[cfg(test)]
mod tests;

pub use begin::relay;
pub use drained::Drained;
pub use ends::{Receiver, Sender};
pub use line::Relay;
pub use pair::{Pair, run_pair};
