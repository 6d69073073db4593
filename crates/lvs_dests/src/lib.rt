//! The real servers of a director, live and trashed, with running totals.
#![tactic(auto)]

mod candidates_after;
mod clearing;
mod counts;
mod dests;
mod edits;
mod listing;
mod lists;
mod moves;
mod place;
mod pool;
mod reaping;
mod refused;
mod row;
mod serving;
mod slots;
#[cfg(test)]
mod tests;
mod totals;
mod trash;

pub use dests::Dests;
pub use refused::{DestRefused, Removed};
pub use totals::Totals;
