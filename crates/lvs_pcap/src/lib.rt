//! Reads and writes capture files, and makes rounds of a script from them.
#![tactic(auto)]

mod captured_script;
mod counting;
mod fields;
mod header;
mod making;
mod packets;
mod places;
mod reading;
mod refused;
#[cfg(test)]
mod tests;
mod writing;

pub use captured_script::captured;
pub use packets::ip_of;
pub use reading::read_capture;
pub use refused::CaptureRefused;
pub use writing::{append_header, append_packet, write_capture};
