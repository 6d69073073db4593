//! Rewriting packets in place for masquerade, and the outer header of a tunnel.
#![tactic(auto)]

mod masq;
mod sums;
#[cfg(test)]
mod tests;
mod tunnel;

pub use masq::{masq_in, masq_out};
pub use tunnel::{TooLong, outer_header};
