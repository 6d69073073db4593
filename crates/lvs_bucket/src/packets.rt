//! The entry of a packet.
ghost use Rattle.std.specs.Prelude.{◌≡◌};
ghost use Rattle.std.specs.Option.{option_copied};
ghost use Rattle.lvs_types.specs.Transport.{transport_of};
ghost use Rattle.lvs_model.specs.Buckets.{keyed_in, answered_in, incoming_in, outgoing_in};

use lvs_entries::Entries;
use lvs_keys::key_of_packet;
use lvs_types::{Entry, Head};

fn find_key(entries: &Entries, head: &Head) -> Option<Entry>
    ensures { result ≡ keyed_in entries.now.entries head.now (transport_of head.now) }
{
    let proto = head.transport()?;
    entries.find_in(&key_of_packet(proto, head)).copied()
}

fn find_reply(entries: &Entries, head: &Head) -> Option<Entry>
    ensures { result ≡ answered_in entries.now.entries head.now (transport_of head.now) }
{
    let proto = head.transport()?;
    entries
        .find_out(proto, head.src, head.sport, head.dst, head.dport)
        .copied()
}

/// The entry of an incoming packet's key.
pub(crate) fn find_incoming(entries: &Entries, head: Option<&Head>) -> Option<Entry>
    ensures { result ≡ incoming_in entries.now.entries (option_copied head.entry) }
{
    find_key(entries, head?)
}

/// The entry of an outgoing packet's reply tuple.
pub(crate) fn find_outgoing(entries: &Entries, head: Option<&Head>) -> Option<Entry>
    ensures { result ≡ outgoing_in entries.now.entries (option_copied head.entry) }
{
    find_reply(entries, head?)
}
