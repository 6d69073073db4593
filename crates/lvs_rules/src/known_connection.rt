//! A packet of a connection: its entry is bound where it can be, and then reused, ended or used.
ghost use Rattle.std.specs.Prelude.{◌≡◌, ◌<◌, ◌≤◌, ◌^◌, Some, IfSome, IfNone, length};
ghost use Rattle.lvs_rules.specs.Bounds.{HasFewPackets};
ghost use Rattle.lvs_rules.specs.Packets.{packet_of, IsReadPacket, ServesFor};
ghost use Rattle.lvs_model.specs.Scheduling.{connect};
ghost use Rattle.lvs_model.specs.Incoming.{end_entry, is_time_wait, is_quiescent, is_trashed, server_named, is_reused, standing_of, gone, continue, continue_at, continue_bound, arrive};

use crate::binding::try_to_bind;
use crate::forwarding::forward_entry;
use crate::headers::is_syn;
use crate::new_connection::begin_connection;
use crate::packet::{Packet, Rooms};
use crate::tables::{Tables, Whole};
use lvs_model::incoming::Standing;
use lvs_types::{Dest, DestId, DropCause, Entry, Reply, Settings, TcpState};

/// The entry leaves, and its server's overload is looked at.
#[tactic(auto, using(crate::proofs::Lengths::ended_length))]
fn end_entry<W: Whole, T: Tables<W>>(tables: &mut T, e: &Entry)
    requires sound { T.is_sound tables.old }
    requires holds { T.holds tables.old e.now }
    ensures ended { T.state tables.new ≡ end_entry e.now (T.state tables.old) }
    ensures sound { T.is_sound tables.new }
    ensures free { T.is_free tables.new }
    ensures room { T.has_room tables.old → T.has_room tables.new }
    ensures template_room { T.has_template_room tables.old → T.has_template_room tables.new }
    ensures records { T.record_room tables.new ≡ T.record_room tables.old }
    ensures dests { length (T.state tables.new).dests ≡ length (T.state tables.old).dests }
{
    tables.end_entry(e);
}

fn waits(state: Option<TcpState>) -> bool
    ensures { result ≡ is_time_wait state }
{
    match state {
        Some(TcpState::TimeWait) => true,
        _ => false,
    }
}

fn is_quiescent(server: Option<Dest>) -> bool
    ensures { result ≡ is_quiescent server }
{
    match server {
        None => false,
        Some(d) => d.live && d.spec.weight == 0,
    }
}

fn is_in_trash(server: Option<Dest>) -> bool
    ensures { result ≡ is_trashed server }
{
    match server {
        None => false,
        Some(d) => !d.live,
    }
}

/// The server that an entry names.
fn find_named<W: Whole, T: Tables<W>>(tables: &T, server: Option<DestId>) -> Option<Dest>
    requires sound { T.is_sound tables.now }
    ensures { result ≡ server_named server (T.state tables.now).dests }
{
    match server {
        None => None,
        Some(id) => tables.server(id),
    }
}

fn reuses(settings: &Settings, p: &Packet<'_>, e: &Entry, server: Option<Dest>) -> bool
    ensures { result ≡ is_reused settings.now (packet_of p.now) e.now server }
{
    is_syn(p.proto, &p.head)
        && ((settings.reuse_mode == 1 && waits(e.state))
            || (0 < settings.expire_nodest && is_quiescent(server)))
}

pub(crate) fn standing_of(
    settings: &Settings,
    p: &Packet<'_>,
    e: &Entry,
    server: Option<Dest>,
) -> Standing
    ensures { result ≡ standing_of settings.now (packet_of p.now) e.now server }
{
    if reuses(settings, p, e, server) {
        Standing::Reused
    } else if is_in_trash(server) {
        Standing::ServerGone
    } else {
        Standing::InUse
    }
}

fn drop_gone<W: Whole, T: Tables<W>>(tables: &mut T, e: &Entry) -> Reply
    requires sound { T.is_sound tables.old }
    requires holds { T.holds tables.old e.now }
    ensures next { (result, T.state tables.new) ≡ gone (T.state tables.old) e.now }
    ensures sound { T.is_sound tables.new }
{
    if tables.settings().expire_nodest != 0 {
        tables.end_entry(e);
    }
    Reply::Drop(DropCause::Gone)
}

/// A new connection takes the entry's place.
fn reuse_entry<W: Whole, T: Tables<W>>(
    tables: &mut T,
    p: &Packet<'_>,
    e: &Entry,
    rooms: Rooms,
) -> Reply
    requires read { IsReadPacket p.now }
    requires sound { T.is_sound tables.old }
    requires holds { T.holds tables.old e.now }
    requires now { (T.state tables.old).now < 2 ^ 32 }
    requires room { T.has_room tables.old }
    requires template_room { T.has_template_room tables.old }
    requires records { 2 ≤ T.record_room tables.old }
    requires rooms { ServesFor rooms (length (T.state tables.old).dests) p.now }
    ensures next { (result, T.state tables.new) ≡ connect (end_entry e.now (T.state tables.old)) (packet_of p.now) }
    ensures sound { T.is_sound tables.new }
{
    end_entry(tables, e);
    begin_connection(tables, p, rooms)
}

/// A packet of a connection, by how the entry stands.
fn continue_at<W: Whole, T: Tables<W>>(
    tables: &mut T,
    p: &Packet<'_>,
    e: &Entry,
    server: Option<Dest>,
    rooms: Rooms,
) -> Reply
    requires read { IsReadPacket p.now }
    requires sound { T.is_sound tables.old }
    requires holds { T.holds tables.old e.now }
    requires now { (T.state tables.old).now < 2 ^ 32 }
    requires room { T.has_room tables.old }
    requires template_room { T.has_template_room tables.old }
    requires records { 2 ≤ T.record_room tables.old }
    requires rooms { ServesFor rooms (length (T.state tables.old).dests) p.now }
    requires packets { HasFewPackets e.now }
    ensures next { (result, T.state tables.new) ≡ continue_at (T.state tables.old) (packet_of p.now) e.now server }
    ensures sound { T.is_sound tables.new }
{
    match standing_of(tables.settings(), p, e, server) {
        Standing::Reused => reuse_entry(tables, p, e, rooms),
        Standing::ServerGone => drop_gone(tables, e),
        Standing::InUse => forward_entry(tables, p, e, rooms.bytes),
    }
}

fn continue_bound<W: Whole, T: Tables<W>>(
    tables: &mut T,
    p: &Packet<'_>,
    e: Entry,
    rooms: Rooms,
) -> Reply
    requires read { IsReadPacket p.now }
    requires sound { T.is_sound tables.old }
    requires holds { T.holds tables.old e }
    requires now { (T.state tables.old).now < 2 ^ 32 }
    requires room { T.has_room tables.old }
    requires template_room { T.has_template_room tables.old }
    requires records { 2 ≤ T.record_room tables.old }
    requires rooms { ServesFor rooms (length (T.state tables.old).dests) p.now }
    requires packets { HasFewPackets e }
    ensures next { (result, T.state tables.new) ≡ arrive (T.state tables.old) (packet_of p.now) (Some e) }
    ensures sound { T.is_sound tables.new }
{
    let e = try_to_bind(tables, e);
    let server = find_named(tables, e.server);
    continue_at(tables, p, &e, server, rooms)
}

/// The rules take it from what was found: the entry of the packet's key.
pub(crate) fn arrive<W: Whole, T: Tables<W>>(
    tables: &mut T,
    p: &Packet<'_>,
    found: Option<Entry>,
    rooms: Rooms,
) -> Reply
    requires read { IsReadPacket p.now }
    requires sound { T.is_sound tables.old }
    requires holds { IfSome found (T.holds tables.old) }
    requires free { IfNone found (T.is_free tables.old) }
    requires now { (T.state tables.old).now < 2 ^ 32 }
    requires room { T.has_room tables.old }
    requires template_room { T.has_template_room tables.old }
    requires records { 2 ≤ T.record_room tables.old }
    requires rooms { ServesFor rooms (length (T.state tables.old).dests) p.now }
    requires packets { IfSome found HasFewPackets }
    ensures next { (result, T.state tables.new) ≡ arrive (T.state tables.old) (packet_of p.now) found }
    ensures sound { T.is_sound tables.new }
{
    match found {
        None => begin_connection(tables, p, rooms),
        Some(e) => continue_bound(tables, p, e, rooms),
    }
}
