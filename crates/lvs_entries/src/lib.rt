//! Connection entries, in chains by their client and by id.
#![tactic(auto)]

mod chain;
mod chains;
mod entries;
mod number;
#[cfg(test)]
mod tests;
pub mod worked_examples;

pub use entries::Entries;
