//! Ones' complement sums of the Internet protocols (RFC 1071, RFC 1624).
#![tactic(auto)]

mod change;
#[cfg(test)]
mod tests;
mod words;

pub use change::{update16, update32};
pub use words::fold;
