//! The deadlines of entries, in a due list.
#![tactic(auto)]

mod due_list;
mod fresh;
#[cfg(test)]
mod tests;
mod timer;
mod timers;

pub use timer::Timer;
pub use timers::Timers;
