//! The virtual services of a director, in order of addition.
#![tactic(auto)]

mod keys;
mod refused;
mod services;
#[cfg(test)]
mod tests;

pub use refused::ServiceRefused;
pub use services::Services;
