//! The words of ipvsadm(8) lines and of sysctls.
#![tactic(auto)]

mod decimals;
mod given;
mod line;
mod reader;
mod refused;
mod splitting;
mod sysctl;
mod tables;
#[cfg(test)]
mod tests;
mod values;
mod words;

pub use decimals::{read_addr, read_number};
pub use refused::WordsRefused;
pub use sysctl::{read_setting, read_setting_slices};
pub use words::{read_word_slices, read_words};
