//! The listings of a director, and the reading back of saved tables.
#![tactic(auto)]

mod connections;
mod groups;
pub mod laws;
mod names;
mod options;
mod refused;
mod restoring;
mod saving;
mod services;
#[cfg(test)]
mod tests;
pub mod worked_examples;

pub use connections::list_conns;
pub use refused::RestoreRefused;
pub use restoring::restore;
pub use saving::save;
pub use services::list;
