//! The schedulers fo, ovf and mh: by weight, by room, and by Maglev hashing.
#![tactic(auto)]

mod filling;
mod heaviest;
mod maglev;
mod slots;
#[cfg(test)]
mod tests;
mod weights;

pub use heaviest::{pick_fo, pick_ovf};
pub use maglev::{MhTable, pick_mh};
