//! Capture files in the classic pcap format.
use crate::{Bytes, Listed};

/// One captured frame.
#[derive(Debug, PartialEq, Drop)]
pub struct Frame {
    /// When it was captured, in whole seconds since 1970.
    pub seconds: u32,
    /// The microseconds beyond them.
    pub micros: u32,
    /// The length of the frame on the wire, in bytes.
    pub whole: u32,
    /// What was captured of it.
    pub bytes: Bytes,
}

/// A capture file that was read.
#[derive(Debug, PartialEq, Drop)]
pub struct Capture {
    /// The link type: 1 Ethernet, 101 raw IP.
    pub link: u32,
    /// The frames in the order of the file.
    pub frames: Listed<Frame>,
}

/// Why a capture is refused.
#[derive(Clone, Copy, Debug, PartialEq, Eq)]
pub enum CaptureCause {
    /// The file has fewer than 24 bytes.
    Short,
    /// The first four bytes are a1b2c3d4 in neither order.
    Magic,
    /// The version isn't 2.4.
    Version,
    /// The link type is neither 1 nor 101.
    Link,
    /// Fewer than 16 bytes, or fewer than its captured bytes, are there for a record.
    RecordShort,
    /// A frame begins the 4,097th round, those of the script counted.
    TooManyRounds,
    /// A frame is the item beyond 1,048,576, those of the script counted.
    TooManyItems,
}
