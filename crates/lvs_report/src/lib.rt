//! The text of a report: printing it and reading it.
#![tactic(auto)]

mod act;
mod cutting;
mod icmp;
pub mod laws;
mod line;
mod listing;
mod names;
mod numbers;
mod reader;
mod refused;
mod reply;
mod report;
mod round;
pub mod worked_examples;

pub use icmp::print_icmp_answer;
pub use refused::ReportRefused;
pub use report::read_report;
pub use round::print_round;

#[cfg(test)]
mod reading_tests;
#[cfg(test)]
mod tests;
