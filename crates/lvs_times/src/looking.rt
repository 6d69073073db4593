//! Entries looked up in their chains, and by walking all of them.
use crate::filling::key_of;
use lvs_entries::Entries;
use lvs_types::Entry;

/// How many of a hundred entries are found by a walk over all of them.
const WALKS: u32 = 100;

/// How many entries are found in their chains.
pub(crate) fn count_found(entries: &Entries, count: u32) -> usize {
    (0..count)
        .filter(|number| entries.find_in(&key_of(*number)).is_some())
        .count()
}

/// How many of a hundred entries, spread over all, are found by walks.
pub(crate) fn count_walked(plain: &[Entry], count: u32) -> usize {
    (0..count)
        .step_by((count / WALKS).max(1) as usize)
        .filter(|number| {
            let key = key_of(*number);
            plain.iter().any(|e| e.key == key)
        })
        .count()
}
