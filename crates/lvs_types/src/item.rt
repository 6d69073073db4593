//! The items that a director takes.
ghost use Rattle.std.specs.Prelude.{◌≡◌, IfOk};

use crate::{BadSync, Bytes, Command, NoMemory, Setting, SyncItem};
use std::alloc::Global;

/// One event of a director.
#[derive(Debug, PartialEq, Drop)]
pub enum Item {
    /// A packet from a client, with its firewall mark (0: none).
    Incoming { mark: u32, bytes: Bytes },
    /// A packet from a real server.
    Outgoing { bytes: Bytes },
    /// A command of ipvsadm(8).
    Edit(Command),
    /// A sysctl takes a value.
    Set(Setting),
    /// A record of a sync message that arrived, with the message's sync id.
    Learn { sync_id: u8, item: SyncItem },
    /// A sync message that couldn't be read.
    BadSync(BadSync),
    /// The moment becomes this one, in seconds.
    Tick(u64),
    /// The due entries of this bucket end.
    Sweep(u32),
    /// The due templates leave or are renewed, and servers in the trash that nothing names are released.
    Reap,
    /// The pending records are sent.
    SendSync,
}

impl Item {
    /// A copy, with bytes of its own.
    pub fn copy(&self, alloc: Global) -> Result<Item, NoMemory>
        ensures { IfOk result (λ copy. copy ≡ self.now) }
    {
        Ok(match self {
            Item::Incoming { mark, bytes } => Item::Incoming {
                mark: *mark,
                bytes: Bytes::copied(alloc, bytes.as_slice())?,
            },
            Item::Outgoing { bytes } => Item::Outgoing {
                bytes: Bytes::copied(alloc, bytes.as_slice())?,
            },
            Item::Edit(command) => Item::Edit(*command),
            Item::Set(setting) => Item::Set(*setting),
            Item::Learn { sync_id, item } => Item::Learn {
                sync_id: *sync_id,
                item: *item,
            },
            Item::BadSync(cause) => Item::BadSync(*cause),
            Item::Tick(moment) => Item::Tick(*moment),
            Item::Sweep(bucket) => Item::Sweep(*bucket),
            Item::Reap => Item::Reap,
            Item::SendSync => Item::SendSync,
        })
    }
}
