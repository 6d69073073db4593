//! Whether a report is legal for a script.
#![tactic(auto)]

mod acts;
mod checking;
mod clock;
mod director;
mod due;
mod ends;
mod heads;
mod line;
mod lines;
mod listing;
mod queue;
mod refusal;
mod walk;
mod words;

pub use checking::check;
pub use listing::listing_text;

#[cfg(test)]
mod tests;
