//! One chain: the entries of one chain number.
ghost use Rattle.std.specs.Prelude.{◌≡◌, ◌<◌, ◌≤◌, ◌+◌, ◌-◌, ◌^◌, ◌∷◌, ◌++◌, [], length, OnOk, OnErr, OnSome, None};
ghost use Rattle.std.specs.List.{find};
ghost use Rattle.std.specs.Option.{option_copied};
ghost use Rattle.lvs_model.specs.Lookups.{has_entry_id, entry_at, reply_entry};
ghost use Rattle.lvs_model.specs.Binding.{put_entry};
ghost use Rattle.lvs_entries.specs.Keyed.{IsTaken};

use indexmap::IndexMap;
use lvs_keys::{ReplySides, lower};
use lvs_types::{Entry, Key, NoMemory, Steps};
use std::alloc::Global;
use std::marker::Model;
use std::sync::ledger::Ledger;

/// The entries of one chain number, each found by its id without a walk.
#[derive(Debug, Drop)]
pub(crate) struct Chain {
    entries: IndexMap<u64, Entry>,
}

impl Model for Chain {
    ghost use Rattle.indexmap.specs.IndexMap.{values, spare};
    ghost use Rattle.lvs_entries.specs.Seen.{ChainSeen};

    ghost Value = { ChainSeen };

    ghost use Rattle.lvs_entries.specs.Keyed.{AreKeyed};

    ghost view = { λ c. record { entries = values c.entries; spare = spare c.entries } };

    ghost invariant = { λ c. AreKeyed c.entries.entries };
}

/// The first entry of a key. A step is one entry compared.
fn first_of_key<'a, L: Ledger>(
    entries: &'a [Entry],
    key: &Key,
    steps: &mut Steps<L>,
) -> Option<&'a Entry>
    requires { steps.old < 2 ^ 63 }
    ensures found { option_copied result ≡ entry_at key.now entries.now }
    ensures steps { steps.new ≤ steps.old + length entries.now }
    ensures counted { OnSome result (steps.old < steps.new) }
    ensures bound { steps.new ≤ steps.old + 2 ^ 58 }
{
    for e in entries {
        steps.tick();
        if e.key == *key {
            return Some(e);
        }
    }
    None
}

/// The entry of a reply: the one of least id. A step is one entry compared.
#[tactic(auto, using(lvs_keys::proofs::Least::lead_more))]
fn least_of_reply<'a, L: Ledger>(
    entries: &'a [Entry],
    sides: &ReplySides,
    steps: &mut Steps<L>,
) -> Option<&'a Entry>
    requires { steps.old < 2 ^ 63 }
    ensures found { option_copied result ≡ reply_entry sides.now.proto sides.now.daddr sides.now.dport sides.now.caddr sides.now.cport entries.now }
    ensures steps { steps.new ≤ steps.old + length entries.now }
    ensures counted { OnSome result (steps.old < steps.new) }
    ensures bound { steps.new ≤ steps.old + 2 ^ 58 }
{
    let mut least = None;
    for e in entries {
        steps.tick();
        if sides.are_of(e) {
            least = Some(lower(least, e));
        }
    }
    least
}

impl Chain {
    pub(crate) fn new(alloc: Global) -> Chain
        ensures { result.entries ≡ [] }
    {
        Chain {
            entries: IndexMap::new(alloc),
        }
    }

    /// Makes room for so many more.
    pub(crate) fn reserve(&mut self, room: usize) -> Result<(), NoMemory>
        ensures entries { self.new.entries ≡ self.old.entries }
        ensures ok { OnOk result (room ≤ self.new.spare) }
        ensures kept { self.old.spare ≤ self.new.spare }
    {
        self.entries.reserve(room)?;
        Ok(())
    }

    /// Puts in one more, with a new id.
    pub(crate) fn push(&mut self, entry: Entry)
        requires room { 0 < self.old.spare }
        requires new_id { find (has_entry_id entry.id) self.old.entries ≡ None }
        ensures entries { self.new.entries ≡ self.old.entries ++ entry ∷ [] }
        ensures spare { self.old.spare ≤ self.new.spare + 1 }
    {
        let pushed: Result<_, _> = self.entries.insert(entry.id, entry);
        let _ = pushed.unwrap();
    }

    /// Puts an entry in the place of the one of its id.
    pub(crate) fn put(&mut self, entry: Entry)
        ensures entries { self.new.entries ≡ put_entry entry self.old.entries }
        ensures spare { self.new.spare ≡ self.old.spare }
    {
        let Some(old) = self.entries.get_mut(&entry.id) else {
            return;
        };
        *old = entry;
    }

    /// Takes out the entry of an id: the last one takes its place.
    pub(crate) fn remove(&mut self, id: u64) -> Option<Entry>
        ensures removed { result ≡ find (has_entry_id id) self.old.entries }
        ensures taken { IsTaken result self.old.entries self.new.entries }
        ensures spare { self.old.spare ≤ self.new.spare }
    {
        let place = self.entries.get_index_of(&id)?;
        let (_, removed) = self.entries.swap_remove_index(place)?;
        Some(removed)
    }

    /// The entry of an id.
    pub(crate) fn get(&self, id: u64) -> Option<&Entry>
        ensures { option_copied result ≡ find (has_entry_id id) self.now.entries }
    {
        self.entries.get(&id)
    }

    /// The entry of a key. A step is one entry compared.
    pub(crate) fn find_key<L: Ledger>(&self, key: &Key, steps: &mut Steps<L>) -> Option<&Entry>
        requires { steps.old < 2 ^ 63 }
        ensures found { option_copied result ≡ entry_at key.now self.now.entries }
        ensures steps { steps.new ≤ steps.old + length self.now.entries }
        ensures counted { OnSome result (steps.old < steps.new) }
        ensures bound { steps.new ≤ steps.old + 2 ^ 58 }
    {
        first_of_key(self.as_slice(), key, steps)
    }

    /// The entry of a reply: the one of least id. A step is one entry compared.
    pub(crate) fn find_reply<L: Ledger>(
        &self,
        sides: &ReplySides,
        steps: &mut Steps<L>,
    ) -> Option<&Entry>
        requires { steps.old < 2 ^ 63 }
        ensures found { option_copied result ≡ reply_entry sides.now.proto sides.now.daddr sides.now.dport sides.now.caddr sides.now.cport self.now.entries }
        ensures steps { steps.new ≤ steps.old + length self.now.entries }
        ensures counted { OnSome result (steps.old < steps.new) }
        ensures bound { steps.new ≤ steps.old + 2 ^ 58 }
    {
        least_of_reply(self.as_slice(), sides, steps)
    }

    pub(crate) fn as_slice(&self) -> &[Entry]
        ensures { result.now ≡ self.now.entries }
    {
        self.entries.values().as_slice()
    }
}
