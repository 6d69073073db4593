//! The TCP header (RFC 9293, section 3.1), the offset of each field in bytes, and what stands in it.
//!
//! ```text
//!  0                   1                   2                   3
//!  0 1 2 3 4 5 6 7 8 9 0 1 2 3 4 5 6 7 8 9 0 1 2 3 4 5 6 7 8 9 0 1
//! +-+-+-+-+-+-+-+-+-+-+-+-+-+-+-+-+-+-+-+-+-+-+-+-+-+-+-+-+-+-+-+-+
//! |          Source Port          |       Destination Port        |
//! +-+-+-+-+-+-+-+-+-+-+-+-+-+-+-+-+-+-+-+-+-+-+-+-+-+-+-+-+-+-+-+-+
//! |                        Sequence Number                        |
//! +-+-+-+-+-+-+-+-+-+-+-+-+-+-+-+-+-+-+-+-+-+-+-+-+-+-+-+-+-+-+-+-+
//! |                    Acknowledgment Number                      |
//! +-+-+-+-+-+-+-+-+-+-+-+-+-+-+-+-+-+-+-+-+-+-+-+-+-+-+-+-+-+-+-+-+
//! |  Data |       |C|E|U|A|P|R|S|F|                               |
//! | Offset| Rsrvd |W|C|R|C|S|S|Y|I|            Window             |
//! |       |       |R|E|G|K|H|T|N|N|                               |
//! +-+-+-+-+-+-+-+-+-+-+-+-+-+-+-+-+-+-+-+-+-+-+-+-+-+-+-+-+-+-+-+-+
//! |           Checksum            |         Urgent Pointer        |
//! +-+-+-+-+-+-+-+-+-+-+-+-+-+-+-+-+-+-+-+-+-+-+-+-+-+-+-+-+-+-+-+-+
//! |                           [Options]                           |
//! +-+-+-+-+-+-+-+-+-+-+-+-+-+-+-+-+-+-+-+-+-+-+-+-+-+-+-+-+-+-+-+-+
//! ```

pub const SOURCE_PORT: usize = 0;

pub const DESTINATION_PORT: usize = 2;

pub const SEQUENCE_NUMBER: usize = 4;

pub const ACKNOWLEDGMENT_NUMBER: usize = 8;
/// The data offset is the high half of its byte.
pub const DATA_OFFSET: usize = 12;

pub const CONTROL_BITS: usize = 13;

pub const WINDOW: usize = 14;

pub const CHECKSUM: usize = 16;

pub const URGENT_POINTER: usize = 18;

/// The shortest header, one without options, in bytes.
pub const SHORTEST: u16 = 20;

/// The byte of the data offset of the shortest header: five words.
pub const FIVE_WORDS: u8 = 0x50;

/// The control bits that a director looks at, counted in their byte from the lowest.
pub const FIN_BIT: u32 = 0;

pub const SYN_BIT: u32 = 1;

pub const RST_BIT: u32 = 2;

pub const ACK_BIT: u32 = 4;
