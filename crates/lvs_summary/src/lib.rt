//! The summary that a demonstration ends with.
#![tactic(auto)]

mod counting;
mod printing;
#[cfg(test)]
mod tests;

pub use printing::print_summary;
