//! The UDP header (RFC 768), and the offset of each field in bytes.
//!
//! ```text
//!  0      7 8     15 16    23 24    31
//! +--------+--------+--------+--------+
//! |     Source      |   Destination   |
//! |      Port       |      Port       |
//! +--------+--------+--------+--------+
//! |                 |                 |
//! |     Length      |    Checksum     |
//! +--------+--------+--------+--------+
//! ```
use crate::tcp;

pub const SOURCE_PORT: usize = 0;

pub const DESTINATION_PORT: usize = 2;

pub const LENGTH: usize = 4;

pub const CHECKSUM: usize = 6;

/// The whole header, in bytes.
pub const HEADER: u16 = 8;

// Ports are read and written at one place for both protocols.
const _: () = prove!(SOURCE_PORT == tcp::SOURCE_PORT);

const _: () = prove!(DESTINATION_PORT == tcp::DESTINATION_PORT);
