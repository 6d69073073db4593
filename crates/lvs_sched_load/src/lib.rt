//! The schedulers that compare loads: lc, wlc, sed and nq (ipvsadm(8)).
#![tactic(auto)]

mod first_best;
mod order;
mod pick;
#[cfg(test)]
mod tests;

pub use pick::{pick_lc, pick_nq, pick_sed, pick_wlc};
