//! The IPv4 header (RFC 791, section 3.1), the offset of each field in bytes, and what stands in it.
//!
//! ```text
//!  0                   1                   2                   3
//!  0 1 2 3 4 5 6 7 8 9 0 1 2 3 4 5 6 7 8 9 0 1 2 3 4 5 6 7 8 9 0 1
//! +-+-+-+-+-+-+-+-+-+-+-+-+-+-+-+-+-+-+-+-+-+-+-+-+-+-+-+-+-+-+-+-+
//! |Version|  IHL  |Type of Service|          Total Length         |
//! +-+-+-+-+-+-+-+-+-+-+-+-+-+-+-+-+-+-+-+-+-+-+-+-+-+-+-+-+-+-+-+-+
//! |         Identification        |Flags|      Fragment Offset    |
//! +-+-+-+-+-+-+-+-+-+-+-+-+-+-+-+-+-+-+-+-+-+-+-+-+-+-+-+-+-+-+-+-+
//! |  Time to Live |    Protocol   |         Header Checksum       |
//! +-+-+-+-+-+-+-+-+-+-+-+-+-+-+-+-+-+-+-+-+-+-+-+-+-+-+-+-+-+-+-+-+
//! |                       Source Address                          |
//! +-+-+-+-+-+-+-+-+-+-+-+-+-+-+-+-+-+-+-+-+-+-+-+-+-+-+-+-+-+-+-+-+
//! |                    Destination Address                        |
//! +-+-+-+-+-+-+-+-+-+-+-+-+-+-+-+-+-+-+-+-+-+-+-+-+-+-+-+-+-+-+-+-+
//! |                    Options                    |    Padding    |
//! +-+-+-+-+-+-+-+-+-+-+-+-+-+-+-+-+-+-+-+-+-+-+-+-+-+-+-+-+-+-+-+-+
//! ```

/// Version and IHL share a byte.
pub const VERSION_AND_IHL: usize = 0;

pub const TYPE_OF_SERVICE: usize = 1;

pub const TOTAL_LENGTH: usize = 2;

pub const IDENTIFICATION: usize = 4;
/// Flags and fragment offset share two bytes.
pub const FLAGS_AND_OFFSET: usize = 6;

pub const TIME_TO_LIVE: usize = 8;

pub const PROTOCOL: usize = 9;

pub const HEADER_CHECKSUM: usize = 10;

pub const SOURCE: usize = 12;

pub const DESTINATION: usize = 16;

/// The shortest header, one without options, in bytes.
pub const SHORTEST: u16 = 20;

/// The version.
pub const VERSION: u8 = 4;

/// The byte of version and IHL of the shortest header: five words.
pub const FIVE_WORDS: u8 = 0x45;

/// The bit that forbids fragments, counted in its two bytes from the lowest.
pub const DONT_FRAGMENT_BIT: u32 = 14;

/// The byte of the flags of a whole packet that must not be cut into fragments.
pub const DONT_FRAGMENT: u8 = 0x40;

/// The bit that says that more fragments follow.
pub const MORE_FRAGMENTS: u16 = 0x2000;

/// The bits of the fragment offset.
pub const FRAGMENT_OFFSET: u16 = 0x1fff;

/// The protocol of a packet within a packet (RFC 2003, section 3.1).
pub const IP_IN_IP: u8 = 4;

/// The protocol of TCP (RFC 9293, section 3.1).
pub const TCP: u8 = 6;

/// The protocol of UDP (RFC 768).
pub const UDP: u8 = 17;
