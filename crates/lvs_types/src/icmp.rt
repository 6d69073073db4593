//! ICMP errors of masqueraded connections (RFC 792).
use crate::{Addr, Bytes, Malformed};

/// The side from which an ICMP error comes.
#[derive(Clone, Copy, Debug, PartialEq, Eq)]
pub enum Side {
    /// From the client's side.
    Inward,
    /// From the real server's side.
    Outward,
}

/// What becomes of an ICMP error.
#[derive(Debug, PartialEq, Drop)]
pub enum IcmpAnswer {
    /// It goes, rewritten, to the real server.
    ToServer { to: Addr, bytes: Bytes },
    /// It goes, rewritten, to the client.
    ToClient(Bytes),
    /// It is none of the director's.
    Pass,
    /// The real server of the connection was removed.
    Gone,
    /// The ICMP checksum is wrong.
    BadSum,
    /// The bytes are no packet.
    Malformed(Malformed),
}
