//! The headers of packets: where their fields stand, and their reading (RFC 791, RFC 768, RFC 9293).
#![tactic(auto)]

mod fields;
mod heads;
pub mod ipv4;
pub mod numbers;
mod packet;
pub mod tcp;
#[cfg(test)]
mod tests;
pub mod udp;

pub use packet::{Packet, read_packet};
