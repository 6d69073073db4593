//! The tables as they are, or as they would be once an entry had ended.
ghost use Rattle.std.specs.Prelude.{◌≡◌, ◌≤◌, length};
ghost use Rattle.lvs_model.specs.Counts.{active, inactive};
ghost use Rattle.lvs_rules.specs.Views.{dest_in, entries_in};

use crate::entries::{count_active, count_active_without, count_inactive, count_inactive_without};
use lvs_rules::Overload;
use lvs_types::{Dest, DestId, Entry};

/// The server as it would be.
pub(crate) fn seen(d: &Dest, overload: Option<Overload>) -> Dest
    ensures { result ≡ dest_in overload d.now }
{
    match overload {
        None => *d,
        Some(o) => {
            if d.id == o.server {
                Dest {
                    overloaded: o.overloaded,
                    ..*d
                }
            } else {
                *d
            }
        }
    }
}

/// How many entries would name the server in state Established.
pub(crate) fn count_active_in(entries: &[Entry], ended: Option<Entry>, id: DestId) -> u64
    ensures value { result ≡ active id (entries_in ended entries.now) }
    ensures bound { result ≤ length entries.now }
{
    match ended {
        None => count_active(entries, id),
        Some(e) => count_active_without(entries, e.id, id),
    }
}

/// How many would name it in another state.
pub(crate) fn count_inactive_in(entries: &[Entry], ended: Option<Entry>, id: DestId) -> u64
    ensures value { result ≡ inactive id (entries_in ended entries.now) }
    ensures bound { result ≤ length entries.now }
{
    match ended {
        None => count_inactive(entries, id),
        Some(e) => count_inactive_without(entries, e.id, id),
    }
}
