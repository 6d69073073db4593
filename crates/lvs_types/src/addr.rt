//! Addresses and the numbers by which servers and templates are known.

/// An IPv4 address, in host order: 10.0.0.1 is 0x0A000001 (RFC 791, section 3.1).
#[derive(Clone, Copy, Debug, PartialEq, Eq, PartialOrd, Ord, Hash)]
pub struct Addr {
    /// The four bytes of the address as one number, the first one highest.
    pub number: u32,
}

/// The id of a real server: from 1, rising, never used again (this project's profile).
#[derive(Clone, Copy, Debug, PartialEq, Eq, PartialOrd, Ord, Hash)]
pub struct DestId(pub u64);

/// The id of a persistence template: from 1, rising, never used again (this project's profile).
#[derive(Clone, Copy, Debug, PartialEq, Eq, PartialOrd, Ord, Hash)]
pub struct TemplateId(pub u64);
