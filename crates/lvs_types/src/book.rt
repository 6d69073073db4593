//! Rounds: their plans and their books.
ghost use Rattle.std.specs.Prelude.{◌≡◌, IfOk};

use crate::{Bytes, Item, Listed, NoMemory, Reply};
use std::alloc::Global;

/// An item with its answer, as the book of a round keeps it.
#[derive(Debug, PartialEq, Drop)]
pub struct Noted {
    /// 0 the clock, 1 control, 2 sync, 3 and up the workers.
    pub actor: u32,
    /// The item's number in its actor's list, from 0.
    pub number: u64,
    /// What was asked.
    pub item: Item,
    /// What was answered.
    pub reply: Reply,
}

/// An item with its actor and its number in the actor's list.
#[derive(Debug, PartialEq, Drop)]
pub struct Placed {
    /// 0 the clock, 1 control, 2 sync, 3 and up the workers.
    pub actor: u32,
    /// The item's number in its actor's list, from 0.
    pub number: u64,
    /// What is asked.
    pub item: Item,
}

/// What happened in a round.
#[derive(Debug, PartialEq, Drop)]
pub struct RoundBook {
    /// The round's number, from 0.
    pub number: u64,
    /// In seconds.
    pub moment: u64,
    /// How many workers took packets, 1 to 16.
    pub workers: u32,
    /// How many buckets the clock swept, 1 to 256.
    pub buckets: u32,
    /// The acts in order of place.
    pub acts: Listed<Noted>,
    /// The listings in order of the script.
    pub shown: Listed<ShownText>,
}

/// What a round is to do: a list of items for each actor.
#[derive(Debug, PartialEq, Drop)]
pub struct RoundPlan {
    /// In seconds.
    pub moment: u64,
    /// How many buckets the clock sweeps, 1 to 256.
    pub buckets: u32,
    /// The items of the clock, of control, of sync and of each worker.
    pub lists: Listed<Listed<Item>>,
    /// The listings in order of the script.
    pub shown: Listed<Shown>,
}

/// What is shown at the end of a round.
#[derive(Debug, PartialEq, Drop)]
pub enum Shown {
    /// Services and servers.
    List,
    /// Entries and templates.
    Conns,
    /// The tables as ipvsadm words.
    Save,
    /// The answer to an ICMP error from a client's side.
    IcmpIn(Bytes),
    /// The answer to an ICMP error from a server's side.
    IcmpOut(Bytes),
}

impl Shown {
    /// A copy, with bytes of its own.
    pub fn copy(&self, alloc: Global) -> Result<Shown, NoMemory>
        ensures { IfOk result (λ copy. copy ≡ self.now) }
    {
        Ok(match self {
            Shown::List => Shown::List,
            Shown::Conns => Shown::Conns,
            Shown::Save => Shown::Save,
            Shown::IcmpIn(bytes) => Shown::IcmpIn(Bytes::copied(alloc, bytes.as_slice())?),
            Shown::IcmpOut(bytes) => Shown::IcmpOut(Bytes::copied(alloc, bytes.as_slice())?),
        })
    }
}

/// A listing with its lines.
#[derive(Debug, PartialEq, Drop)]
pub struct ShownText {
    /// What is shown.
    pub kind: Shown,
    /// The lines between the first and the last, each with its line feed.
    pub text: Bytes,
}
