//! Messages of the connection synchronisation protocol.
use crate::{Addr, Listed};

/// An IPv4 record of a sync message: a connection, or a template where the flags have 0x1000.
#[derive(Clone, Copy, Debug, PartialEq, Eq)]
pub struct SyncRecord {
    /// The protocol's number; 0 for a template of a mark service.
    pub code: u8,
    /// The low three bits are the method: 0 masquerading, 2 tunnelling, 3 direct routing.
    pub flags: u32,
    /// The number of the TCP state; 0 for UDP.
    pub state: u16,
    /// The client's port; 0 in a template's record.
    pub cport: u16,
    /// The virtual port.
    pub vport: u16,
    /// The real server's port.
    pub dport: u16,
    /// The mark of a mark service, else 0.
    pub mark: u32,
    /// In seconds; 0 counts as 180.
    pub timeout: u32,
    /// The client's address.
    pub caddr: Addr,
    /// The virtual address, or a template's mark as an address.
    pub vaddr: Addr,
    /// The real server's address.
    pub daddr: Addr,
}

/// A record of a sync message.
#[derive(Clone, Copy, Debug, PartialEq, Eq)]
pub enum SyncItem {
    /// An IPv4 record.
    V4(SyncRecord),
    /// An IPv6 record, which is skipped.
    V6,
}

/// A sync message that was read.
#[derive(Debug, PartialEq, Drop)]
pub struct Message {
    /// The sync id of the master that sent it.
    pub sync_id: u8,
    /// Its records in order.
    pub items: Listed<SyncItem>,
}

/// Why bytes are no sync message.
#[derive(Clone, Copy, Debug, PartialEq, Eq)]
pub enum BadSync {
    /// There are fewer than 8 bytes; in version 0 fewer than 4.
    Short,
    /// The version isn't 1 or the spare isn't 0; never in version 0.
    Version,
    /// The size field isn't the number of bytes.
    Size,
    /// Too few bytes are left for a record, or its size is more than what is left, below 4, or
    /// below 36 for IPv4.
    RecordShort,
    /// The record's version isn't 0; this is looked at before its size.
    RecordVersion,
    /// In the bytes of an IPv4 record from 36 on a length is missing or 0, or goes past the record.
    Options,
    /// A record is due and no byte is left, or bytes are left after the last record and its
    /// padding.
    Count,
}

/// What became of a record that arrived; the first that fits, in the order off, other id, v6,
/// protocol, state, method, accepted.
#[derive(Clone, Copy, Debug, PartialEq, Eq)]
pub enum Learnt {
    /// None of the others: an entry or a template was made or renewed.
    Accepted,
    /// No backup daemon runs.
    Off,
    /// The backup daemon has another sync id.
    OtherId,
    /// It is an IPv6 record.
    V6,
    /// The protocol isn't 6 or 17, nor 0 in a template's record.
    BadProto,
    /// A TCP connection's record has a state above 10.
    BadState,
    /// The low three bits of the flags aren't 0, 2 or 3.
    BadMethod,
}
