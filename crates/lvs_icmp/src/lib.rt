//! ICMP errors about masqueraded connections (RFC 792).
#![tactic(auto)]

mod embedded;
mod errors;
mod fields;
mod lookups;
mod rewriting;
#[cfg(test)]
mod tests;

pub use errors::answer;
