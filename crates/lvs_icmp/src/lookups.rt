//! Look-ups in the tables of a snapshot.
ghost use Rattle.std.specs.Prelude.{◌≡◌, ◌+◌, ◌≤◌, length};
ghost use Rattle.lvs_model.specs.IcmpErrors.{embedded_of, names_removed, source_of, source_port_of, destination_of, destination_port_of};
ghost use Rattle.lvs_model.specs.Lookups.{entry_at, reply_entry};
ghost use Rattle.lvs_model.specs.Reading.{header_len_of};

use crate::embedded::{embedded_of, sides_of};
use lvs_keys::{ReplySides, find_reply};
use lvs_types::{DestId, DestRow, Entry, Key, Proto};

/// The entry of a key.
pub(crate) fn find_key(entries: &[Entry], key: &Key) -> Option<Entry>
    ensures { result ≡ entry_at key.now entries.now }
{
    entries.iter().copied().find(|e| e.key == *key)
}

/// The masqueraded connection of a message about a packet to a server: of several the one of least id.
pub(crate) fn find_forwarded(entries: &[Entry], proto: Proto, message: &[u8]) -> Option<Entry>
    requires message { 8 ≤ length message.now }
    requires long { 20 ≤ length (embedded_of message.now) }
    requires fits { header_len_of (embedded_of message.now) + 8 ≤ length (embedded_of message.now) }
    ensures { result ≡ reply_entry proto (destination_of (embedded_of message.now)) (destination_port_of (embedded_of message.now)) (source_of (embedded_of message.now)) (source_port_of (embedded_of message.now)) entries.now }
{
    let sides = sides_of(proto, embedded_of(message));
    let answer = ReplySides {
        proto,
        daddr: sides.dst,
        dport: sides.dport,
        caddr: sides.src,
        cport: sides.sport,
    };
    find_reply(entries, &answer).copied()
}

/// Whether the named server is one that was removed.
pub(crate) fn names_removed(named: Option<DestId>, rows: &[DestRow]) -> bool
    ensures { result ≡ names_removed named rows.now }
{
    rows.iter()
        .any(|row| named == Some(row.dest.id) && !row.dest.live)
}
