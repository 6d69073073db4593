//! The running totals of a server.

/// How many connection entries and persistence templates name a server.
#[derive(Clone, Copy, Debug, PartialEq, Eq)]
pub struct Totals {
    /// The entries in state Established.
    pub active: u64,
    /// The other entries, those of UDP included.
    pub inactive: u64,
    /// The templates.
    pub templates: u64,
}
