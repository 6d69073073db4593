//! What a capture file tells besides its frames: its byte order, and why it is refused.
use lvs_types::CaptureCause;

/// Which byte of a number stands first.
#[derive(Clone, Copy, Debug, PartialEq, Eq)]
pub enum Endianness {
    /// The low byte.
    Little,
    /// The high byte.
    Big,
}

/// A refused capture.
#[derive(Clone, Copy, Debug, PartialEq, Eq)]
pub struct BadCapture {
    /// The number of the record: 0 is the file header, records count from 1.
    pub at: u64,
    pub cause: CaptureCause,
}
