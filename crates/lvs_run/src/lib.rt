//! The top call: reads the program's words and its input, does what they ask for and writes the answer.
#![tactic(auto)]

mod commands;
mod director;
mod done;
mod exit;
mod fault;
mod given;
mod input;
mod listings;
mod output;
mod parts;
mod program;
mod program_words;
mod round;
mod rounds;
mod serial;
mod streams;
mod threaded;
mod threaded_commands;
mod threaded_rounds;
mod verdict;
mod writing;

pub use done::Done;
pub use exit::exit_code;
pub use fault::fault_line;
pub use program::serve;
pub use serial::serve_serial;
pub use streams::{Served, serve_streams};

#[cfg(test)]
mod capture_rows;
#[cfg(test)]
mod check_rows;
#[cfg(test)]
mod fault_tests;
#[cfg(test)]
mod gate_rows;
#[cfg(test)]
mod gates;
#[cfg(test)]
mod icmp_rows;
#[cfg(test)]
mod rows;
#[cfg(test)]
mod tests;
#[cfg(test)]
mod threaded_rows;
