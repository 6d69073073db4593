//! One bucket: its connection entries and their deadlines together.
#![tactic(auto)]

mod bucket;
mod changes;
mod learnt;
mod looking;
mod packets;
#[cfg(test)]
mod tests;

pub use bucket::Bucket;
