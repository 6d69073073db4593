//! A value that only the holder of a turn changes, with its counted history.
#![tactic(auto)]

mod begin;
mod book;
mod close;
mod commit;
pub mod examples;
mod journal;
mod leave;
#[cfg(test)]
mod locked;
#[cfg(test)]
mod notes;
mod pass;
mod plays;
#[cfg(test)]
mod tests;
mod turn;
mod turnstile;
mod view;

pub use book::Book;
pub use journal::{Journal, Work};
pub use pass::Pass;
pub use view::{Lane, Phase, View};
