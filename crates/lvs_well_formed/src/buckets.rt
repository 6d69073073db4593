//! Laws of buckets: a step looks at one bucket of the entries and changes it alone.
ghost use Rattle.std.specs.Prelude.{◌≡◌, ◌≢◌, ℕ, ◌<◌, List, Some};
ghost use Rattle.std.specs.List.{filter};
ghost use Rattle.std.specs.List.Sorted.{IsStrictlyIncreasing};
ghost use Rattle.lvs_types.specs.Protocols.{proto_code};
ghost use Rattle.lvs_types.specs.declared.addr.Addr.{Addr};
ghost use Rattle.lvs_types.specs.declared.bucket.Found.TheVariants as found;
ghost use Rattle.lvs_types.specs.declared.entry.Entry.{Entry};
ghost use Rattle.lvs_types.specs.declared.entry.Key.{Key};
ghost use Rattle.lvs_types.specs.declared.item.Item.{Item};
ghost use Rattle.lvs_types.specs.declared.item.Item.TheVariants as item;
ghost use Rattle.lvs_types.specs.declared.service.Proto.{Proto};
ghost use Rattle.lvs_types.specs.declared.sync.SyncItem.{SyncItem};
ghost use Rattle.lvs_model.specs.Buckets.{entries_of, home, is_due_entry, look_in, look_up};
ghost use Rattle.lvs_model.specs.Clock.{is_swept};
ghost use Rattle.lvs_model.specs.Lists.{sorted_by};
ghost use Rattle.lvs_model.specs.Lookups.{entry_at, reply_entry};
ghost use Rattle.lvs_model.specs.Numbers.{bucket_of};
ghost use Rattle.lvs_model.specs.State.{State, initial};
ghost use Rattle.lvs_model.specs.Step.{step, run};
ghost use Rattle.lvs_model.specs.WellFormed.{IsWellFormed, entry_ids};
ghost use Rattle.lvs_well_formed.specs.Moments.{moment_after};

/// A step leaves the entries of every bucket but the item's. An item of no bucket leaves all of them.
pub fn a_step_changes_one_bucket()
    ensures { (s : State) (next : Item) (b : ℕ) → IsWellFormed s → 0 < s.buckets → home s.buckets next ≢ Some b → entries_of b (step s next).1 ≡ entries_of b s }
{}

/// What the rules look up in the whole list stands in one bucket: the entry of a key in the bucket of its
/// client, the entry of an answer in that of the client it goes to, the due ones of a bucket in it.
pub fn a_bucket_has_what_is_looked_up()
    ensures keyed { (s : State) (key : Key) → entry_at key (entries_of (bucket_of (proto_code key.proto) key.caddr key.cport s.buckets) s) ≡ entry_at key s.entries }
    ensures answered { (s : State) (proto : Proto) (daddr : Addr) (dport : ℕ) (caddr : Addr) (cport : ℕ) → reply_entry proto daddr dport caddr cport (entries_of (bucket_of (proto_code proto) caddr cport s.buckets) s) ≡ reply_entry proto daddr dport caddr cport s.entries }
    ensures due { (s : State) (b : ℕ) → filter (is_due_entry s.now) (entries_of b s) ≡ filter (is_swept s b) s.entries }
{}

/// So a packet and a record find in their bucket what they find in the whole list, and the sweep of a bucket
/// finds there all that it ends.
pub fn an_item_finds_all_in_its_bucket()
    ensures incoming { (s : State) (mark : ℕ) (bytes : List ℕ) → look_up s (item.Incoming mark bytes) ≡ look_in s.now (item.Incoming mark bytes) s.entries }
    ensures outgoing { (s : State) (bytes : List ℕ) → look_up s (item.Outgoing bytes) ≡ look_in s.now (item.Outgoing bytes) s.entries }
    ensures records { (s : State) (sync_id : ℕ) (record_item : SyncItem) → look_up s (item.Learn sync_id record_item) ≡ look_in s.now (item.Learn sync_id record_item) s.entries }
    ensures sweeps { (s : State) (b : ℕ) → b < s.buckets → look_up s (item.Sweep b) ≡ found.Due (filter (is_swept s b) s.entries) }
{}

/// A step leaves the number of buckets, and the moment where the item is no tick.
pub fn steps_keep_buckets_and_the_moment()
    ensures buckets { (s : State) (next : Item) → IsWellFormed s → (step s next).1.buckets ≡ s.buckets }
    ensures moment { (s : State) (next : Item) → IsWellFormed s → (step s next).1.now ≡ moment_after s.now next }
{}

/// The entries of a director stand by rising id: there are none at the beginning, and each step and each
/// run keep it. So the order of ids, in which listings show them, is the order of the list.
pub fn entries_stand_by_rising_id()
    ensures begins { (local : Addr) (buckets : ℕ) → IsStrictlyIncreasing (entry_ids (initial local buckets).entries) }
    ensures goes_on { (s : State) (next : Item) → IsWellFormed s → IsStrictlyIncreasing (entry_ids s.entries) → IsStrictlyIncreasing (entry_ids (step s next).1.entries) }
    ensures runs { (local : Addr) (buckets : ℕ) (items : List Item) → IsStrictlyIncreasing (entry_ids (run (initial local buckets) items).1.entries) }
    ensures in_order { (s : State) → IsStrictlyIncreasing (entry_ids s.entries) → sorted_by (λ (e : Entry). e.id) s.entries ≡ s.entries }
{}
