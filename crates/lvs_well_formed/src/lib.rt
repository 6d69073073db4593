//! A director's state stays well formed and its ids rise: laws of the definitions.
#![tactic(auto)]

pub mod broken_states;
pub mod buckets;
pub mod laws;
pub mod worked_examples;
