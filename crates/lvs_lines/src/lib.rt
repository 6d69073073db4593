//! Texts cut into lines, and lines into words. Nothing is copied.
#![tactic(auto)]

mod cutting;
#[cfg(test)]
mod tests;

pub use cutting::{cut_line, is_readable, is_skipped, without_return, words_of};
