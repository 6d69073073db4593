//! A bucket: what an item finds in it, and how it changes.
ghost use Rattle.std.specs.Prelude.{◌≡◌, ◌<◌, [], IfOk, OnOk, OnErr};
ghost use Rattle.std.specs.Option.{option_copied};
ghost use Rattle.lvs_model.specs.Buckets.{head_of_item, look_in, changed_by, Fits};

use crate::changes::{end, end_due, put, swap, update};
use crate::looking::look;
use lvs_entries::Entries;
use lvs_timer::Timers;
use lvs_types::{Change, Entry, Found, Head, Item, NoMemory};
use std::alloc::Global;
use std::marker::Model;

/// Connection entries of one bucket with their deadlines. Contracts see the entries in order of id.
#[derive(Debug, Drop)]
pub struct Bucket {
    number: u32,
    buckets: u32,
    entries: Entries,
    timers: Timers,
    /// For how many changes there is room.
    room: usize,
}

impl Model for Bucket {
    ghost use Rattle.lvs_bucket.specs.Seen.{BucketSeen};

    ghost Value = { BucketSeen };

    ghost use Rattle.lvs_bucket.specs.Pairs.{IsPair, HasRoom};

    ghost view = { λ b. record { number = b.number; buckets = b.buckets; entries = b.entries.entries; spare = b.room } };

    ghost invariant = { λ b. IsPair b.entries.entries b.timers.timers × HasRoom b.room b.entries.spare b.timers.spare };
}

impl Bucket {
    /// A bucket without entries: the one of this number, of so many.
    pub fn new(alloc: Global, number: u32, buckets: u32) -> Result<Bucket, NoMemory>
        ensures number { IfOk result (λ b. b.number ≡ number) }
        ensures buckets { IfOk result (λ b. b.buckets ≡ buckets) }
        ensures entries { IfOk result (λ b. b.entries ≡ []) }
    {
        Ok(Bucket {
            number,
            buckets,
            entries: Entries::new(alloc)?,
            timers: Timers::new(alloc)?,
            room: 0,
        })
    }

    /// Its number, from 0 on.
    pub fn number(&self) -> u32
        ensures { result ≡ self.now.number }
    {
        self.number
    }

    /// Of how many buckets it is one.
    pub fn buckets(&self) -> u32
        ensures { result ≡ self.now.buckets }
    {
        self.buckets
    }

    /// What the bucket has for an item at the moment `now`, in seconds: the entry of the packet's
    /// key, of its reply tuple or of the record's key, or all due entries by id for a sweep. `head`
    /// is what the headers of the item's packet say, none where it is no packet or can't be read.
    /// There is room for one change then; without memory the bucket is as before.
    pub fn prepare(
        &mut self,
        alloc: Global,
        item: &Item,
        head: Option<&Head>,
        now: u64,
    ) -> Result<Found, NoMemory>
        requires { option_copied head ≡ head_of_item item.now }
        ensures found { IfOk result (λ found. found ≡ look_in now item.now self.old.entries) }
        ensures number { self.new.number ≡ self.old.number }
        ensures buckets { self.new.buckets ≡ self.old.buckets }
        ensures entries { self.new.entries ≡ self.old.entries }
        ensures room { OnOk result (0 < self.new.spare) }
        ensures err { OnErr result (self.new ≡ self.old) }
    {
        self.entries.reserve()?;
        self.timers.reserve()?;
        let found = look(alloc, &self.entries, &self.timers, item, head, now)?;
        self.room = 1;
        Ok(found)
    }

    /// Makes a change. It takes no memory, and uses up the room that was made.
    pub fn apply(&mut self, change: &Change)
        requires room { 0 < self.old.spare }
        requires fits { Fits change.now self.old.entries }
        ensures entries { self.new.entries ≡ changed_by change.now self.old.entries }
        ensures number { self.new.number ≡ self.old.number }
        ensures buckets { self.new.buckets ≡ self.old.buckets }
    {
        self.room = 0;
        match *change {
            Change::Keep => {}
            Change::Put(entry) => put(&mut self.entries, &mut self.timers, entry),
            Change::Update(entry) => update(&mut self.entries, &mut self.timers, entry),
            Change::End(id) => end(&mut self.entries, &mut self.timers, id),
            Change::Swap(id, entry) => swap(&mut self.entries, &mut self.timers, id, entry),
            Change::EndDue(moment) => end_due(&mut self.entries, &mut self.timers, moment),
        }
    }

    /// All entries, in order of id.
    pub fn all(&self, alloc: Global) -> Result<Vec<Entry>, NoMemory>
        ensures { IfOk result (λ all. all.items ≡ self.now.entries) }
    {
        self.entries.all(alloc)
    }
}
