//! The plain director: flat lists in vectors, walked at each use.
#![tactic(auto)]

mod clock;
mod dests;
mod entries;
mod flat;
mod lists;
mod looking;
mod placing;
mod removal;
mod services;
mod snapshot;
mod tables;
mod templates;
mod view;

pub use flat::Flat;

#[cfg(test)]
mod tests;
