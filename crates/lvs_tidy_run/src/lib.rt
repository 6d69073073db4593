//! Prints the script that a capture makes: the top call of a program of its own.
#![tactic(auto)]

mod given;
mod input;
mod laws;
mod parts;
mod serving;
#[cfg(test)]
mod tests;
mod words;

pub use laws::capture_plays_what_is_printed;
pub use serving::serve_script;
pub use words::Asked;
