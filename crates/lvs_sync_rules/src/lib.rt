//! The rules of connection synchronisation: which connections are sent, what of them, and what is
//! learnt.
#![tactic(auto)]

mod due;
mod learning;
mod records;
#[cfg(test)]
mod tests;

pub use due::due_for_sync;
pub use learning::accept;
pub use records::{of_entry, of_template};
