//! The entry of a connection's record.
ghost use Rattle.std.specs.Prelude.{◌≡◌};
ghost use Rattle.lvs_model.specs.SyncRules.{is_template_record};
ghost use Rattle.lvs_model.specs.Buckets.{key_of_record as key_by, key_of_learnt, recorded_in};

use lvs_entries::Entries;
use lvs_types::{Entry, Key, Proto, SyncItem, SyncRecord};

/// The flag of a template's record.
const TEMPLATE: u32 = 0x1000;

fn is_template(r: &SyncRecord) -> bool
    ensures { result ≡ is_template_record r.now }
{
    r.flags & TEMPLATE != 0
}

/// The key of a record: none where it is a template's, or of another protocol.
fn key_of_record(r: &SyncRecord) -> Option<Key>
    ensures { result ≡ key_by r.now }
{
    if is_template(r) {
        return None;
    }
    let proto = Proto::of_code(r.code)?;
    Some(Key {
        proto,
        caddr: r.caddr,
        cport: r.cport,
        vaddr: r.vaddr,
        vport: r.vport,
    })
}

fn key_of(item: &SyncItem) -> Option<Key>
    ensures { result ≡ key_of_learnt item.now }
{
    match item {
        SyncItem::V4(r) => key_of_record(r),
        SyncItem::V6 => None,
    }
}

/// The entry of a record's key.
pub(crate) fn find_recorded(entries: &Entries, item: &SyncItem) -> Option<Entry>
    ensures { result ≡ recorded_in entries.now.entries (key_of_learnt item.now) }
{
    entries.find_in(&key_of(item)?).copied()
}
