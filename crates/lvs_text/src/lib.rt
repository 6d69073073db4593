//! The pieces that lines of text are made of.
#![tactic(auto)]

mod pieces;
#[cfg(test)]
mod tests;

pub use pieces::{put, put_addr, put_endpoint, put_hex, put_number};
