//! TCP states, the timeouts of entries, and which entries are active.
#![tactic(auto)]

mod flag;
mod state;
mod tables;
#[cfg(test)]
mod tests;
mod timeout;

pub use state::next_state;
pub use timeout::{is_active, timeout_of};
