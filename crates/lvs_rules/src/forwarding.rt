//! A packet is forwarded, and its entry and the pending sync records follow.
ghost use Rattle.std.specs.Prelude.{◌≡◌, ◌<◌, ◌≤◌, ◌+◌, ◌^◌, ◌++◌, [], length, vec_capacity};
ghost use Rattle.lvs_types.specs.declared.entry.Entry.{Entry};
ghost use Rattle.lvs_rules.specs.Packets.{packet_of, IsReadPacket};
ghost use Rattle.lvs_rules.specs.Bounds.{HasFewPackets};
ghost use Rattle.lvs_model.specs.Forwarding.{direction_in, state_after, in_state, after_packet, template_records, records_of_template, records_due, forwarded, forward_known};
ghost use Rattle.lvs_model.specs.Rewriting.{bytes_for, outer_bytes, masq_in_bytes, is_too_long};

use crate::packet::Packet;
use crate::tables::{Tables, Whole};
use lvs_rewrite::{masq_in, outer_header};
use lvs_states::{next_state, timeout_of};
use lvs_sync_rules::{due_for_sync, of_entry, of_template};
use lvs_types::{
    Addr, Bytes, Direction, DropCause, Entry, Head, Method, Reply, Settings, TcpState, TemplateId,
};

pub(crate) fn direction_of(method: Method) -> Direction
    ensures { result ≡ direction_in method }
{
    match method {
        Method::Masq => Direction::Input,
        Method::Tunnel => Direction::InputOnly,
        Method::Direct => Direction::InputOnly,
    }
}

/// The state after a packet; UDP has none.
pub(crate) fn state_then(
    old: Option<TcpState>,
    direction: Direction,
    head: &Head,
) -> Option<TcpState>
    ensures { result ≡ state_after old direction head.now }
{
    match old {
        None => None,
        Some(old) => Some(next_state(old, direction, head)),
    }
}

/// The entry in a state, its timeout that of the state, and due after it.
pub(crate) fn put_in_state(
    settings: &Settings,
    now: u64,
    state: Option<TcpState>,
    e: &Entry,
) -> Entry
    requires { now < 2 ^ 32 }
    ensures { result ≡ in_state settings.now now state e.now }
{
    let timeout = timeout_of(settings, state);
    Entry {
        state,
        timeout,
        deadline: now + u64::from(timeout),
        ..*e
    }
}

/// The entry after one more packet of its client.
fn with_packet<W: Whole, T: Tables<W>>(tables: &T, p: &Packet<'_>, e: &Entry) -> Entry
    requires now { (T.state tables.now).now < 2 ^ 32 }
    requires packets { HasFewPackets e.now }
    ensures { result ≡ after_packet (T.state tables.now) (packet_of p.now) e.now }
{
    let state = state_then(e.state, direction_of(e.method), &p.head);
    let counted = Entry {
        packets: e.packets + 1,
        ..*e
    };
    put_in_state(tables.settings(), tables.moment(), state, &counted)
}

fn push_template_records<W: Whole, T: Tables<W>>(tables: &mut T, template: Option<TemplateId>)
    requires sound { T.is_sound tables.old }
    requires records { 1 ≤ T.record_room tables.old }
    ensures next { T.state tables.new ≡ record (T.state tables.old) { pending = (T.state tables.old).pending ++ records_of_template template (T.state tables.old).templates } }
    ensures sound { T.is_sound tables.new }
    ensures holds { (e : Entry) → T.holds tables.old e → T.holds tables.new e }
{
    if let Some(id) = template {
        if let Some(t) = tables.template_of(id) {
            tables.push_record(of_template(&t));
        }
    }
}

/// Appends what is to be sent of an entry that was in a state before.
pub(crate) fn push_records<W: Whole, T: Tables<W>>(
    tables: &mut T,
    before: Option<TcpState>,
    e: &Entry,
)
    requires sound { T.is_sound tables.old }
    requires records { 2 ≤ T.record_room tables.old }
    ensures next { T.state tables.new ≡ record (T.state tables.old) { pending = (T.state tables.old).pending ++ records_due (T.state tables.old) before e.now } }
    ensures sound { T.is_sound tables.new }
    ensures holds { (other : Entry) → T.holds tables.old other → T.holds tables.new other }
{
    if tables.daemons().master.is_some() && due_for_sync(tables.settings(), before, e) {
        tables.push_record(of_entry(e));
        push_template_records(tables, e.template);
    }
}

/// Whether the packet would be too long for a tunnel to a server of the method.
pub(crate) fn exceeds(head: &Head, method: Method) -> bool
    ensures { result ≡ is_too_long head.now method }
{
    match method {
        Method::Masq => false,
        Method::Tunnel => head.total > 65515,
        Method::Direct => false,
    }
}

/// Copies bytes into a list that has room for them.
pub(crate) fn fill(room: &mut Vec<u8>, bytes: &[u8])
    requires empty { room.old.items ≡ [] }
    requires space { length bytes.now ≤ vec_capacity room.old }
    ensures { room.new.items ≡ bytes.now }
{
    room.extend_from_slice(bytes).unwrap();
}

fn fill_both(room: &mut Vec<u8>, outer: &[u8; 20], bytes: &[u8])
    requires empty { room.old.items ≡ [] }
    requires space { length bytes.now + 20 ≤ vec_capacity room.old }
    ensures { room.new.items ≡ outer.now ++ bytes.now }
{
    room.extend_from_slice(outer).unwrap();
    room.extend_from_slice(bytes).unwrap();
}

fn masquerade(mut room: Vec<u8>, p: &Packet<'_>, daddr: Addr, dport: u16) -> Bytes
    requires read { IsReadPacket p.now }
    requires empty { room.items ≡ [] }
    requires space { length p.now.bytes.now ≤ vec_capacity room }
    ensures { result ≡ masq_in_bytes p.now.head p.now.bytes.now daddr dport }
{
    fill(&mut room, p.bytes);
    masq_in(&mut room, &p.head, daddr, dport);
    Bytes::from_vec(room)
}

/// The packet on its way to an address and port, unless its tunnel packet would be too long.
pub(crate) fn forward<W: Whole, T: Tables<W>>(
    tables: &T,
    p: &Packet<'_>,
    method: Method,
    daddr: Addr,
    dport: u16,
    mut room: Vec<u8>,
) -> Reply
    requires read { IsReadPacket p.now }
    requires empty { room.items ≡ [] }
    requires space { length p.now.bytes.now + 20 ≤ vec_capacity room }
    ensures { result ≡ forwarded (T.state tables.now) (packet_of p.now) method daddr dport }
{
    let bytes = match method {
        Method::Masq => masquerade(room, p, daddr, dport),
        Method::Direct => {
            fill(&mut room, p.bytes);
            Bytes::from_vec(room)
        }
        Method::Tunnel => match outer_header(&p.head, tables.local(), daddr) {
            Err(_) => return Reply::Drop(DropCause::TooLong),
            Ok(outer) => {
                fill_both(&mut room, &outer, p.bytes);
                Bytes::from_vec(room)
            }
        },
    };
    Reply::Forward {
        method,
        to: daddr,
        bytes,
    }
}

/// A packet of a connection that is there.
pub(crate) fn forward_entry<W: Whole, T: Tables<W>>(
    tables: &mut T,
    p: &Packet<'_>,
    e: &Entry,
    room: Vec<u8>,
) -> Reply
    requires read { IsReadPacket p.now }
    requires sound { T.is_sound tables.old }
    requires holds { T.holds tables.old e.now }
    requires now { (T.state tables.old).now < 2 ^ 32 }
    requires records { 2 ≤ T.record_room tables.old }
    requires packets { HasFewPackets e.now }
    requires empty { room.items ≡ [] }
    requires space { length p.now.bytes.now + 20 ≤ vec_capacity room }
    ensures next { (result, T.state tables.new) ≡ forward_known (T.state tables.old) (packet_of p.now) e.now }
    ensures sound { T.is_sound tables.new }
{
    let reply = forward(tables, p, e.method, e.daddr, e.dport, room);
    let after = with_packet(tables, p, e);
    push_records(tables, e.state, &after);
    tables.put_entry(e, &after);
    reply
}
