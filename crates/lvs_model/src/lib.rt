//! The definitions of the director, and laws about them.
#![tactic(auto)]

pub mod admin;
pub mod capture;
pub mod incoming;
pub mod laws;
mod numbers;
pub mod script;
pub mod task;
pub mod worked_examples;

pub use numbers::{bucket_of, mix, worker_of};
