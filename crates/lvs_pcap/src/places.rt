//! The places and lengths of a capture file, in bytes (pcap-savefile(5)).
//!
//! ```text
//! file header    0 magic               record    0 seconds
//!                4 major version                 4 microseconds
//!                6 minor version                 8 captured length
//!                8 zone                         12 original length
//!               12 accuracy                     16 the captured bytes
//!               16 greatest length
//!               20 link
//!               24 the records
//! ```

pub(crate) const MAGIC: usize = 0;

pub(crate) const MAJOR: usize = 4;

pub(crate) const MINOR: usize = 6;

pub(crate) const LINK: usize = 20;

pub(crate) const FILE_HEADER: usize = 24;

pub(crate) const SECONDS: usize = 0;

pub(crate) const MICROS: usize = 4;

pub(crate) const CAPTURED: usize = 8;

pub(crate) const WHOLE: usize = 12;

pub(crate) const RECORD_HEADER: usize = 16;

/// The magic of a file, in its own byte order.
pub(crate) const MAGIC_NUMBER: u32 = 0xa1b2_c3d4;

/// The same with its bytes the other way round.
pub(crate) const SWAPPED_MAGIC: u32 = 0xd4c3_b2a1;

pub(crate) const MAJOR_VERSION: u16 = 2;

pub(crate) const MINOR_VERSION: u16 = 4;

/// The link type of Ethernet.
pub(crate) const ETHERNET: u32 = 1;

/// The link type of IP without a header before it.
pub(crate) const RAW_IP: u32 = 101;
