//! A round whose actors work at once, a thread each.
#![tactic(auto)]

mod actors;
mod round;

pub use round::play;
