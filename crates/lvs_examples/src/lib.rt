//! Worked examples of the director's definitions, which the prover computes: one file a subject.
#![tactic(auto)]

pub mod binding;
pub mod edits;
pub mod first_packets;
pub mod learning;
pub mod methods;
pub mod one_packet;
pub mod pending;
pub mod persistence;
pub mod rounds;
pub mod services;
pub mod unchanged;
