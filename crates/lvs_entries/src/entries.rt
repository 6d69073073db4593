//! The entries of one bucket: chains by client, and the chain of each id.
ghost use Rattle.std.specs.Prelude.{◌≡◌, ◌<◌, ◌≤◌, ◌+◌, ◌^◌, [], count_by, IfOk, OnOk, OnErr, OnSome, None, IsSomeAnd};
ghost use Rattle.std.specs.List.{find};
ghost use Rattle.std.specs.Option.{option_copied};
ghost use Rattle.lvs_model.specs.Lists.{without, insert_by};
ghost use Rattle.lvs_model.specs.Lookups.{has_entry_id, entry_at, reply_entry};
ghost use Rattle.lvs_model.specs.Binding.{put_entry};
ghost use Rattle.lvs_types.specs.declared.entry.Entry.{Entry};
ghost use Rattle.lvs_entries.specs.Chains.{chain_of as chain_by, key_chain, is_in_chain};
ghost use Rattle.lvs_entries.specs.Seen.{AreListed};

use crate::chain::Chain;
use crate::chains::{gather, make_chains, make_room};
use crate::number::{chain_of, chain_of_key};
use lvs_keys::ReplySides;
use lvs_types::{Addr, Entry, Key, NoMemory, Proto, Steps};
use std::alloc::Global;
use std::collections::HashMap;
use std::marker::{Brand, Model};
use std::sync::ledger::{Blank, Ledger};

/// For how many entries `reserve` makes room in each chain at once.
const ROOM: usize = 4;

/// Connection entries, each id and each key once. Contracts see them in order of id.
#[derive(Debug, Drop)]
pub struct Entries {
    chains: Vec<Chain>,
    /// The chain of each id.
    places: HashMap<u64, u8>,
    /// For how many more there is room in each chain and among the places.
    room: usize,
}

impl Model for Entries {
    ghost use Rattle.lvs_entries.specs.Seen.{EntriesSeen};

    ghost Value = { EntriesSeen };

    ghost use Rattle.lvs_entries.specs.Store.{entries_in, place_in, IsStore};
    ghost use Rattle.std.specs.HashMap.{spare};

    ghost view = { λ e. record { entries = entries_in e.chains.items; spare = e.room } };

    ghost invariant = { λ e. IsStore e.chains.items (place_in e.places) (spare e.places) e.room };
}

impl Entries {
    /// No entries.
    pub fn new(alloc: Global) -> Result<Entries, NoMemory>
        ensures { IfOk result (λ e. e.entries ≡ []) }
    {
        Ok(Entries {
            chains: make_chains(alloc)?,
            places: HashMap::new(alloc),
            room: 0,
        })
    }

    /// Makes room for one more entry.
    pub fn reserve(&mut self) -> Result<(), NoMemory>
        ensures entries { self.new.entries ≡ self.old.entries }
        ensures ok { OnOk result (0 < self.new.spare) }
        ensures kept { self.old.spare ≤ self.new.spare }
        ensures err { OnErr result (self.new ≡ self.old) }
        ensures listed { AreListed self.new.entries }
    {
        if self.room > 0 {
            return Ok(());
        }
        self.places.reserve(ROOM)?;
        make_room(&mut self.chains, ROOM)?;
        self.room = ROOM;
        Ok(())
    }

    /// Puts in an entry with a new id and a new key.
    pub fn insert(&mut self, entry: Entry)
        requires room { 0 < self.old.spare }
        requires new_id { find (has_entry_id entry.id) self.old.entries ≡ None }
        requires new_key { entry_at entry.key self.old.entries ≡ None }
        ensures entries { self.new.entries ≡ insert_by (λ (e : Entry). e.id) entry self.old.entries }
        ensures listed { AreListed self.new.entries }
        ensures spare { self.new.spare + 1 ≡ self.old.spare }
    {
        let number = chain_of_key(&entry.key);
        let placed: Result<_, _> = self.places.insert(entry.id, number);
        let _ = placed.unwrap();
        self.chains[usize::from(number)].push(entry);
        self.room -= 1;
    }

    /// Puts an entry in the place of the one of its id, which has the same key.
    pub fn update(&mut self, entry: Entry)
        requires there { IsSomeAnd (find (has_entry_id entry.id) self.old.entries) (λ old. old.key ≡ entry.key) }
        ensures entries { self.new.entries ≡ put_entry entry self.old.entries }
        ensures listed { AreListed self.new.entries }
        ensures spare { self.new.spare ≡ self.old.spare }
    {
        let number = chain_of_key(&entry.key);
        self.chains[usize::from(number)].put(entry);
    }

    /// Takes out the entry of an id.
    pub fn remove(&mut self, id: u64) -> Option<Entry>
        ensures removed { result ≡ find (has_entry_id id) self.old.entries }
        ensures entries { self.new.entries ≡ without (has_entry_id id) self.old.entries }
        ensures listed { AreListed self.new.entries }
        ensures spare { self.new.spare ≡ self.old.spare }
    {
        let Some(number) = self.places.remove(&id) else {
            return None;
        };
        self.chains[usize::from(number)].remove(id)
    }

    /// The entry of an id.
    pub fn get(&self, id: u64) -> Option<&Entry>
        ensures found { option_copied result ≡ find (has_entry_id id) self.now.entries }
        ensures listed { AreListed self.now.entries }
    {
        match self.places.get(&id) {
            Some(number) => self.chains[usize::from(*number)].get(id),
            None => None,
        }
    }

    /// The entry of a key.
    pub fn find_in(&self, key: &Key) -> Option<&Entry>
        ensures { option_copied result ≡ entry_at key.now self.now.entries }
    {
        self.find_in_from::<Brand>(key, Blank::new(1))
    }

    /// The entry of a key. A step is one entry compared: at most those of the key's chain,
    /// and at least the one that is found.
    pub fn find_in_counted<L: Ledger>(&self, key: &Key, steps: &mut Steps<L>) -> Option<&Entry>
        requires { steps.old < 2 ^ 62 }
        ensures found { option_copied result ≡ entry_at key.now self.now.entries }
        ensures steps { steps.new ≤ steps.old + count_by (is_in_chain (key_chain key.now)) self.now.entries }
        ensures counted { OnSome result (steps.old < steps.new) }
    {
        self.chains[usize::from(chain_of_key(key))].find_key(key, steps)
    }

    fn find_in_from<L: Ledger>(&self, key: &Key, blank: Blank) -> Option<&Entry>
        requires one_part { blank.parts ≡ 1 }
        requires name { blank.name ≡ L.name }
        requires parts { blank.parts ≡ L.parts }
        ensures { option_copied result ≡ entry_at key.now self.now.entries }
    {
        let mut steps = Steps::<L>::new(blank);
        self.find_in_counted(key, &mut steps)
    }

    /// The entry of a reply: of the masqueraded connections between the server's side `daddr`,
    /// `dport` and the client's side `caddr`, `cport` the one of least id.
    pub fn find_out(
        &self,
        proto: Proto,
        daddr: Addr,
        dport: u16,
        caddr: Addr,
        cport: u16,
    ) -> Option<&Entry>
        ensures { option_copied result ≡ reply_entry proto daddr dport caddr cport self.now.entries }
    {
        let sides = ReplySides {
            proto,
            daddr,
            dport,
            caddr,
            cport,
        };
        self.find_out_from::<Brand>(&sides, Blank::new(1))
    }

    /// The entry of a reply. A step is one entry compared: at most those of the tuple's chain,
    /// and at least the one that is found.
    pub fn find_out_counted<L: Ledger>(
        &self,
        proto: Proto,
        daddr: Addr,
        dport: u16,
        caddr: Addr,
        cport: u16,
        steps: &mut Steps<L>,
    ) -> Option<&Entry>
        requires { steps.old < 2 ^ 62 }
        ensures found { option_copied result ≡ reply_entry proto daddr dport caddr cport self.now.entries }
        ensures steps { steps.new ≤ steps.old + count_by (is_in_chain (chain_by proto caddr cport)) self.now.entries }
        ensures counted { OnSome result (steps.old < steps.new) }
    {
        let sides = ReplySides {
            proto,
            daddr,
            dport,
            caddr,
            cport,
        };
        self.find_sides(&sides, steps)
    }

    fn find_sides<L: Ledger>(&self, sides: &ReplySides, steps: &mut Steps<L>) -> Option<&Entry>
        requires { steps.old < 2 ^ 62 }
        ensures found { option_copied result ≡ reply_entry sides.now.proto sides.now.daddr sides.now.dport sides.now.caddr sides.now.cport self.now.entries }
        ensures steps { steps.new ≤ steps.old + count_by (is_in_chain (chain_by sides.now.proto sides.now.caddr sides.now.cport)) self.now.entries }
        ensures counted { OnSome result (steps.old < steps.new) }
    {
        let number = chain_of(sides.proto, sides.caddr, sides.cport);
        self.chains[usize::from(number)].find_reply(sides, steps)
    }

    fn find_out_from<L: Ledger>(&self, sides: &ReplySides, blank: Blank) -> Option<&Entry>
        requires one_part { blank.parts ≡ 1 }
        requires name { blank.name ≡ L.name }
        requires parts { blank.parts ≡ L.parts }
        ensures { option_copied result ≡ reply_entry sides.now.proto sides.now.daddr sides.now.dport sides.now.caddr sides.now.cport self.now.entries }
    {
        let mut steps = Steps::<L>::new(blank);
        self.find_sides(sides, &mut steps)
    }

    /// All entries, in order of id.
    pub fn all(&self, alloc: Global) -> Result<Vec<Entry>, NoMemory>
        ensures entries { IfOk result (λ all. all.items ≡ self.now.entries) }
        ensures listed { IfOk result (λ all. AreListed all.items) }
    {
        let mut all = gather(alloc, &self.chains)?;
        all.sort_unstable_by_key(|e| e.id);
        Ok(all)
    }
}
