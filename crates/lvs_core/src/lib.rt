//! The director over a board and its buckets: an item is answered without a walk over all entries.
#![tactic(auto)]

mod buckets;
mod director;
mod home;
mod snapshot;
mod stepping;
#[cfg(test)]
mod tests;

pub use director::Core;
pub use home::{Home, place};
