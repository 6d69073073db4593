//! What a bucket of entries finds for an item, and how an item changes it.
use crate::{Entry, Listed};

/// What a bucket has for an item.
#[derive(Debug, PartialEq, Drop)]
pub enum Found {
    /// No entry has the item's key or reply tuple, or the item looks for none.
    Nothing,
    /// The entry of the item's key or reply tuple.
    One(Entry),
    /// All due entries by id.
    Due(Listed<Entry>),
}

/// A change of a bucket's entries.
#[derive(Clone, Copy, Debug, PartialEq, Eq)]
pub enum Change {
    /// All entries stay as they are.
    Keep,
    /// A new entry.
    Put(Entry),
    /// The entry of that id becomes this one.
    Update(Entry),
    /// The entry of that id leaves.
    End(u64),
    /// The entry of that id leaves, and a new one comes.
    Swap(u64, Entry),
    /// All entries with a deadline at or before this moment leave.
    EndDue(u64),
}
