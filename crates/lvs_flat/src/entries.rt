//! Look-ups, counts and edits of the entries.
ghost use Rattle.std.specs.Prelude.{◌≡◌, ◌≤◌, ◌+◌, ◌*◌, not, ◌&&◌, length, count_by, vec_len, vec_capacity};
ghost use Rattle.std.specs.List.{find, filter, list_any, position};
ghost use Rattle.lvs_types.specs.declared.entry.Entry.{Entry};
ghost use Rattle.lvs_model.specs.Lists.{without, least_by};
ghost use Rattle.lvs_model.specs.Lookups.{entry_at, has_entry_id, is_reply_of, reply_entry};
ghost use Rattle.lvs_model.specs.Binding.{put_entry};
ghost use Rattle.lvs_model.specs.Counts.{active, inactive, counts_active, counts_inactive, total, controls, is_made_by};

use lvs_states::is_active;
use lvs_types::{Addr, DestId, Entry, Key, Method, Proto, TemplateId};

/// The entry of a key.
pub(crate) fn find_key(entries: &[Entry], key: &Key) -> Option<Entry>
    ensures { result ≡ entry_at key.now entries.now }
{
    for e in entries {
        if e.key == *key {
            return Some(*e);
        }
    }
    None
}

/// How many entries name the server in state Established.
pub(crate) fn count_active(entries: &[Entry], id: DestId) -> u64
    ensures value { result ≡ active id entries.now }
    ensures bound { result ≤ length entries.now }
{
    entries
        .iter()
        .filter(|e| e.server == Some(id) && is_active(e.state))
        .count() as u64
}

/// How many other entries name the server.
pub(crate) fn count_inactive(entries: &[Entry], id: DestId) -> u64
    ensures value { result ≡ inactive id entries.now }
    ensures bound { result ≤ length entries.now }
{
    entries
        .iter()
        .filter(|e| e.server == Some(id) && !is_active(e.state))
        .count() as u64
}

/// How many entries but one name the server in state Established.
pub(crate) fn count_active_without(entries: &[Entry], entry: u64, id: DestId) -> u64
    ensures value { result ≡ count_by (λ (e : Entry). not (has_entry_id entry e) && counts_active id e) entries.now }
    ensures bound { result ≤ length entries.now }
{
    entries
        .iter()
        .filter(|e| e.id != entry && (e.server == Some(id) && is_active(e.state)))
        .count() as u64
}

/// How many entries but one name it in another state.
pub(crate) fn count_inactive_without(entries: &[Entry], entry: u64, id: DestId) -> u64
    ensures value { result ≡ count_by (λ (e : Entry). not (has_entry_id entry e) && counts_inactive id e) entries.now }
    ensures bound { result ≤ length entries.now }
{
    entries
        .iter()
        .filter(|e| e.id != entry && (e.server == Some(id) && !is_active(e.state)))
        .count() as u64
}

/// How many entries but one name the server.
#[tactic(auto, using(crate::proofs::Leaving::count_without))]
pub(crate) fn count_others(entries: &[Entry], entry: u64, id: DestId) -> u64
    ensures value { result ≡ total id (without (has_entry_id entry) entries.now) }
    ensures bound { result ≤ 2 * length entries.now }
{
    count_active_without(entries, entry, id) + count_inactive_without(entries, entry, id)
}

/// How many entries name the server.
pub(crate) fn count_total(entries: &[Entry], id: DestId) -> u64
    ensures { result ≡ total id entries.now }
{
    count_active(entries, id) + count_inactive(entries, id)
}

/// How many entries were made by the template.
pub(crate) fn count_controls(entries: &[Entry], id: TemplateId) -> u64
    ensures { result ≡ controls id entries.now }
{
    entries.iter().filter(|e| e.template == Some(id)).count() as u64
}

fn place_of(entries: &[Entry], id: u64) -> Option<usize>
    ensures { result ≡ position (has_entry_id id) entries.now }
{
    entries.iter().position(|e| e.id == id)
}

/// Puts an entry in the place of the one of its id.
pub(crate) fn put(entries: &mut [Entry], entry: Entry)
    ensures { entries.new ≡ put_entry entry entries.old }
{
    if let Some(place) = place_of(entries, entry.id) {
        entries[place] = entry;
    }
}

/// Takes out the entry of an id.
pub(crate) fn remove(entries: &mut Vec<Entry>, id: u64)
    ensures items { entries.new.items ≡ without (has_entry_id id) entries.old.items }
    ensures bound { vec_len entries.new ≤ vec_len entries.old }
    ensures capacity { vec_capacity entries.new ≡ vec_capacity entries.old }
{
    entries.retain(|e| e.id != id);
}
