//! Sync messages as bytes: reading those of versions 0 and 1, and writing them.
#![tactic(auto)]

mod fields;
mod laws;
mod new_record;
mod old_record;
mod options;
mod reading;
#[cfg(test)]
mod real_messages;
mod refused;
#[cfg(test)]
mod tests;
mod version;
mod writing;

pub use laws::written_is_read_again;
pub use reading::read_message;
pub use refused::MessageRefused;
pub use writing::write_message;
