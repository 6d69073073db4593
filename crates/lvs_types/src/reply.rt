//! What a director answers.
use crate::{Addr, BadSync, Bytes, Learnt, Malformed, Messages, Method};

/// The answer to an item.
#[derive(Debug, PartialEq, Drop)]
pub enum Reply {
    /// The packet, rewritten, goes to a real server.
    Forward {
        /// How it goes there.
        method: Method,
        /// The server's address.
        to: Addr,
        /// The packet as it is sent.
        bytes: Bytes,
    },
    /// The packet, rewritten, goes to the client.
    Outward(Bytes),
    /// The packet is none of the director's.
    Pass,
    /// The packet goes nowhere.
    Drop(DropCause),
    /// The edit or the sysctl was carried out.
    Done,
    /// The edit was not carried out, and nothing changed.
    Refused(EditRefused),
    /// What became of a record that arrived.
    Learnt(Learnt),
    /// The sync message couldn't be read, and nothing changed.
    BadMessage(BadSync),
    /// The moment is the given one.
    Ticked,
    /// So many entries ended.
    Swept(u64),
    /// So many templates left and were renewed, and so many servers were released.
    Reaped {
        /// How many due templates left.
        templates: u64,
        /// How many due templates were held for 60 seconds more.
        renewed: u64,
        /// How many servers in the trash were released.
        servers: u64,
    },
    /// The messages of the pending records, which are then none.
    Sent(Messages),
}

/// Why a packet is dropped.
#[derive(Clone, Copy, Debug, PartialEq, Eq)]
pub enum DropCause {
    /// The bytes are no packet.
    Malformed(Malformed),
    /// No real server can be picked.
    NoDest,
    /// The real server of the connection was removed.
    Gone,
    /// The tunnel packet would be longer than 65,535 bytes.
    TooLong,
}

/// Why an edit is refused. It then changes nothing.
#[derive(Clone, Copy, Debug, PartialEq, Eq)]
pub enum EditRefused {
    /// `-A`: a service of that key is there. `-a`: a live server with that address and port stands
    /// in the service.
    Exists,
    /// No service of that key is there.
    NoService,
    /// No live server with that address and port stands in the service.
    NoDest,
    /// The lower threshold is above the upper one.
    Thresholds,
    /// The daemon runs already.
    Running,
    /// The daemon doesn't run.
    NotRunning,
}
