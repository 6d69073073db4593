//! Changes of entries and of their deadlines.
ghost use Rattle.std.specs.Prelude.{◌≡◌, ◌<◌, [], ◌∷◌, ◌++◌, true, None};
ghost use Rattle.lvs_model.specs.Lists.{without};
ghost use Rattle.lvs_model.specs.Lookups.{has_entry_id, entry_at};
ghost use Rattle.lvs_model.specs.Binding.{put_entry};
ghost use Rattle.lvs_model.specs.Buckets.{AreOlder, entry_of_id, is_due_entry, is_found_with};
ghost use Rattle.lvs_bucket.specs.Pairs.{IsPair};

use lvs_entries::Entries;
use lvs_timer::Timers;
use lvs_types::Entry;

/// A new entry comes.
pub(crate) fn put(entries: &mut Entries, timers: &mut Timers, entry: Entry)
    requires pair { IsPair entries.old.entries timers.old.timers }
    requires entry_room { 0 < entries.old.spare }
    requires timer_room { 0 < timers.old.spare }
    requires older { AreOlder entry.id entries.old.entries }
    requires free { entry_at entry.key entries.old.entries ≡ None }
    ensures entries { entries.new.entries ≡ entries.old.entries ++ entry ∷ [] }
    ensures pair { IsPair entries.new.entries timers.new.timers }
{
    entries.insert(entry);
    timers.arm(entry.id, entry.deadline);
}

/// The entry of that id becomes this one.
pub(crate) fn update(entries: &mut Entries, timers: &mut Timers, entry: Entry)
    requires pair { IsPair entries.old.entries timers.old.timers }
    requires timer_room { 0 < timers.old.spare }
    requires there { is_found_with entry.key (entry_of_id entry.id entries.old.entries) ≡ true }
    ensures entries { entries.new.entries ≡ put_entry entry entries.old.entries }
    ensures pair { IsPair entries.new.entries timers.new.timers }
{
    let Some(&old) = entries.get(entry.id) else {
        return;
    };
    timers.disarm(entry.id, old.deadline);
    timers.arm(entry.id, entry.deadline);
    entries.update(entry);
}

/// The entry of an id leaves, if it is there.
pub(crate) fn end(entries: &mut Entries, timers: &mut Timers, id: u64)
    requires pair { IsPair entries.old.entries timers.old.timers }
    ensures entries { entries.new.entries ≡ without (has_entry_id id) entries.old.entries }
    ensures pair { IsPair entries.new.entries timers.new.timers }
    ensures entry_room { entries.new.spare ≡ entries.old.spare }
    ensures timer_room { timers.new.spare ≡ timers.old.spare }
{
    if let Some(old) = entries.remove(id) {
        timers.disarm(id, old.deadline);
    }
}

/// The entry of an id leaves, and a new one of its key comes.
pub(crate) fn swap(entries: &mut Entries, timers: &mut Timers, id: u64, entry: Entry)
    requires pair { IsPair entries.old.entries timers.old.timers }
    requires entry_room { 0 < entries.old.spare }
    requires timer_room { 0 < timers.old.spare }
    requires older { AreOlder entry.id entries.old.entries }
    requires there { is_found_with entry.key (entry_of_id id entries.old.entries) ≡ true }
    ensures entries { entries.new.entries ≡ without (has_entry_id id) entries.old.entries ++ entry ∷ [] }
    ensures pair { IsPair entries.new.entries timers.new.timers }
{
    end(entries, timers, id);
    put(entries, timers, entry);
}

/// All entries with a deadline at or before the moment leave.
pub(crate) fn end_due(entries: &mut Entries, timers: &mut Timers, moment: u64)
    requires { IsPair entries.old.entries timers.old.timers }
    ensures entries { entries.new.entries ≡ without (is_due_entry moment) entries.old.entries }
    ensures pair { IsPair entries.new.entries timers.new.timers }
{
    while let Some(timer) = timers.next_due(moment) {
        end(entries, timers, timer.id);
    }
}
