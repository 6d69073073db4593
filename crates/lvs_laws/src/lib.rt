//! Laws of the director: what an operator relies on.
#![tactic(auto)]

pub mod keep;
pub mod keep_examples;
pub mod release;
pub mod save;
pub mod takeover;
pub mod worked_books;
pub mod worked_releases;
