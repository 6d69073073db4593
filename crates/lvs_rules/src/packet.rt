//! A packet on its way through the director, and the memory that is taken for it before the first change.
use lvs_types::{Addr, Candidate, Head, Proto};

/// An unfragmented packet of TCP or UDP.
#[derive(Drop)]
pub struct Packet<'a> {
    pub mark: u32,
    pub proto: Proto,
    pub head: Head,
    /// The bytes up to the total length.
    pub bytes: &'a [u8],
}

/// Empty lists with room for all servers, as a scheduler sees them.
#[derive(Drop)]
pub struct ServerLists {
    pub candidates: Vec<Candidate>,
    pub addrs: Vec<Addr>,
}

/// What a packet may need: an empty list with room for its bytes, and those for the servers.
#[derive(Drop)]
pub struct Rooms {
    pub bytes: Vec<u8>,
    pub lists: ServerLists,
}
