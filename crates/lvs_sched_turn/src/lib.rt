//! The schedulers that go round: rr and wrr (ipvsadm(8)).
#![tactic(auto)]

mod divisor;
mod greatest;
mod place;
mod round_robin;
#[cfg(test)]
mod tests;
mod weighted;

pub use round_robin::pick_rr;
pub use weighted::pick_wrr;
