//! What connections are told apart by: the key of a packet, and the two sides of an answer.
#![tactic(auto)]

mod key;
mod reply;

pub use key::key_of_packet;
pub use reply::{ReplySides, find_reply, lower};
