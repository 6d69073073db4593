//! An incoming packet from its bytes to its reply.
ghost use Rattle.std.specs.Prelude.{◌≡◌, ◌<◌, ◌≤◌, ◌^◌, IfOk, IfSome, IfNone, OnErr, length};
ghost use Rattle.lvs_rules.specs.Bounds.{HasHeadroom, HasFewPackets};
ghost use Rattle.lvs_rules.specs.TooLong.{HaveDistinctIds};
ghost use Rattle.lvs_rules.specs.Packets.{packet_of, IsReadPacket, ServesFor, ServesAll};
ghost use Rattle.lvs_model.specs.Buckets.{head_read, incoming_in};
ghost use Rattle.lvs_model.specs.Lookups.{entry_at};
ghost use Rattle.lvs_model.specs.Packets.{key_of};
ghost use Rattle.lvs_model.specs.Reading.{read};
ghost use Rattle.lvs_model.specs.Incoming.{incoming, incoming_packet};

use crate::known_connection::arrive;
use crate::packet::{Packet, Rooms, ServerLists};
use crate::tables::{Tables, Whole};
use crate::too_long::is_too_long;
use lvs_headers::read_packet;
use lvs_types::{DropCause, Entry, NoMemory, Reply};
use std::alloc::Global;

/// Empty lists for the servers.
fn take_lists<W: Whole, T: Tables<W>>(alloc: Global, tables: &T) -> Result<ServerLists, NoMemory>
    requires sound { T.is_sound tables.now }
    ensures { IfOk result (λ lists. ServesAll lists (length (T.state tables.now).dests)) }
{
    let servers = tables.count_servers();
    Ok(ServerLists {
        candidates: Vec::with_capacity(alloc, servers)?,
        addrs: Vec::with_capacity(alloc, servers)?,
    })
}

/// Empty lists for the packet and the servers.
fn take_rooms<W: Whole, T: Tables<W>>(
    alloc: Global,
    tables: &T,
    p: &Packet<'_>,
) -> Result<Rooms, NoMemory>
    requires read { IsReadPacket p.now }
    requires sound { T.is_sound tables.now }
    ensures { IfOk result (λ rooms. ServesFor rooms (length (T.state tables.now).dests) p.now) }
{
    Ok(Rooms {
        bytes: Vec::with_capacity(alloc, p.bytes.len() + 20)?,
        lists: take_lists(alloc, tables)?,
    })
}

/// A packet that fits any tunnel: nothing is taken back.
fn arrive_short<W: Whole, T: Tables<W>>(
    tables: &mut T,
    p: &Packet<'_>,
    found: Option<Entry>,
    rooms: Rooms,
) -> Reply
    requires short { p.now.head.total ≤ 65515 }
    requires read { IsReadPacket p.now }
    requires sound { T.is_sound tables.old }
    requires found { found ≡ entry_at (key_of p.now.proto p.now.head) (T.state tables.old).entries }
    requires holds { IfSome found (T.holds tables.old) }
    requires free { IfNone found (T.is_free tables.old) }
    requires now { (T.state tables.old).now < 2 ^ 32 }
    requires room { T.has_room tables.old }
    requires template_room { T.has_template_room tables.old }
    requires records { 2 ≤ T.record_room tables.old }
    requires rooms { ServesFor rooms (length (T.state tables.old).dests) p.now }
    requires packets { IfSome found HasFewPackets }
    ensures next { (result, T.state tables.new) ≡ incoming_packet (T.state tables.old) (packet_of p.now) }
    ensures sound { T.is_sound tables.new }
{
    arrive(tables, p, found, rooms)
}

/// A packet that may be too long for a tunnel: whether it is, is told before the first change.
fn arrive_long<W: Whole, T: Tables<W>>(
    tables: &mut T,
    p: &Packet<'_>,
    found: Option<Entry>,
    lists: ServerLists,
    rooms: Rooms,
) -> Reply
    requires read { IsReadPacket p.now }
    requires sound { T.is_sound tables.old }
    requires found { found ≡ entry_at (key_of p.now.proto p.now.head) (T.state tables.old).entries }
    requires holds { IfSome found (T.holds tables.old) }
    requires free { IfNone found (T.is_free tables.old) }
    requires now { (T.state tables.old).now < 2 ^ 32 }
    requires room { T.has_room tables.old }
    requires template_room { T.has_template_room tables.old }
    requires records { 2 ≤ T.record_room tables.old }
    requires lists { ServesAll lists (length (T.state tables.old).dests) }
    requires rooms { ServesFor rooms (length (T.state tables.old).dests) p.now }
    requires packets { IfSome found HasFewPackets }
    requires apart { HaveDistinctIds (T.state tables.old) }
    ensures next { (result, T.state tables.new) ≡ incoming_packet (T.state tables.old) (packet_of p.now) }
    ensures sound { T.is_sound tables.new }
{
    if is_too_long(tables, p, found, lists) {
        return Reply::Drop(DropCause::TooLong);
    }
    arrive(tables, p, found, rooms)
}

#[tactic(auto, using(crate::proofs::Finds::few_packets))]
fn handle_packet<W: Whole, T: Tables<W>>(
    alloc: Global,
    tables: &mut T,
    p: &Packet<'_>,
    found: Option<Entry>,
) -> Result<Reply, NoMemory>
    requires read { IsReadPacket p.now }
    requires sound { T.is_sound tables.old }
    requires found { found ≡ entry_at (key_of p.now.proto p.now.head) (T.state tables.old).entries }
    requires holds { IfSome found (T.holds tables.old) }
    requires free { IfNone found (T.is_free tables.old) }
    requires room { HasHeadroom (T.state tables.old) }
    requires apart { HaveDistinctIds (T.state tables.old) }
    ensures ok { IfOk result (λ r. (r, T.state tables.new) ≡ incoming_packet (T.state tables.old) (packet_of p.now)) }
    ensures err { OnErr result (T.state tables.new ≡ T.state tables.old) }
    ensures sound { T.is_sound tables.new }
{
    let rooms = take_rooms(alloc, tables, p)?;
    if p.head.total <= 65515 {
        tables.make_room()?;
        Ok(arrive_short(tables, p, found, rooms))
    } else {
        let lists = take_lists(alloc, tables)?;
        tables.make_room()?;
        Ok(arrive_long(tables, p, found, lists, rooms))
    }
}

/// An incoming packet, from its bytes and the entry of its key to its reply.
pub(crate) fn handle_incoming<W: Whole, T: Tables<W>>(
    alloc: Global,
    tables: &mut T,
    mark: u32,
    bytes: &[u8],
    found: Option<Entry>,
) -> Result<Reply, NoMemory>
    requires sound { T.is_sound tables.old }
    requires found { found ≡ incoming_in (T.state tables.old).entries (head_read (read bytes.now)) }
    requires holds { IfSome found (T.holds tables.old) }
    requires free { IfNone found (T.is_free tables.old) }
    requires room { HasHeadroom (T.state tables.old) }
    requires apart { HaveDistinctIds (T.state tables.old) }
    ensures ok { IfOk result (λ r. (r, T.state tables.new) ≡ incoming (T.state tables.old) mark bytes.now) }
    ensures err { OnErr result (T.state tables.new ≡ T.state tables.old) }
    ensures sound { T.is_sound tables.new }
{
    let packet = match read_packet(bytes) {
        Err(cause) => return Ok(Reply::Drop(DropCause::Malformed(cause))),
        Ok(packet) => packet,
    };
    let head = packet.head();
    let Some(proto) = head.transport() else {
        return Ok(Reply::Pass);
    };
    let packet = Packet {
        mark,
        proto,
        head,
        bytes: packet.whole(),
    };
    handle_packet(alloc, tables, &packet, found)
}
