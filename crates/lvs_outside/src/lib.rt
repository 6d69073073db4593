//! What the director reads from, writes to and is held at.
#![tactic(auto)]

mod gate;
mod mem_sink;
mod mem_source;
mod read_source;
mod reading;
mod sink;
mod source;
mod write_sink;
mod writing;

pub use gate::{Gate, OpenGate};
pub use mem_sink::MemSink;
pub use mem_source::MemSource;
pub use read_source::ReadSource;
pub use reading::{MAX_INPUT, ReadStop, read_all};
pub use sink::Sink;
pub use source::Source;
pub use write_sink::WriteSink;
pub use writing::write_all;

#[cfg(test)]
mod tests;
