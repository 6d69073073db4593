//! Scripts as text: one spelling for each line, which is read again as the same script.
#![tactic(auto)]

mod commands;
mod laws;
mod lines;
mod printing;
mod services;
#[cfg(test)]
mod tests;
mod words;

pub use laws::printed_scripts_are_read_again;
pub use printing::print_script;
