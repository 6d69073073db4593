//! A new connection: its service, its template, the pick of a server, and its entry.
ghost use Rattle.std.specs.Prelude.{◌≡◌, ◌<◌, ◌≤◌, ◌+◌, ◌^◌, [], Some, None, map, length, slice_get, vec_len, vec_capacity, IfSome};
ghost use Rattle.lvs_rules.specs.Packets.{packet_of, IsReadPacket, ServesFor, ServesAll};
ghost use Rattle.lvs_rules.specs.Views.{seen_in};
ghost use Rattle.lvs_rules.specs.TooLong.{choice_in};
ghost use Rattle.lvs_model.specs.Lookups.{servers_of};
ghost use Rattle.lvs_types.specs.declared.dest.Dest.{Dest};
ghost use Rattle.lvs_model.specs.LeastLoad.{AreWeighed};
ghost use Rattle.lvs_types.specs.declared.entry.Entry.{Entry};
ghost use Rattle.lvs_model.specs.Counts.{candidates};
ghost use Rattle.lvs_model.specs.Pick.{pick};
ghost use Rattle.lvs_model.specs.Scheduling.{connection_port, mark_of, state_before, new_entry, enter, is_one_packet, connect_to, new_template, replace_template, take_pick, with_cursor, pick_at, picked, schedule};

use crate::forwarding::{direction_of, forward, push_records, put_in_state, state_then};
use crate::packet::{Packet, Rooms, ServerLists};
use crate::persistence::key_for;
use crate::pick::pick_server;
use crate::tables::{Tables, Whole};
use crate::view::{AS_THEY_ARE, View};
use lvs_keys::key_of_packet;
use lvs_types::{
    Addr, Candidate, Cursor, Dest, DropCause, Entry, Head, Proto, Reply, Service, ServiceKey,
    TcpState, Template, TemplateId, TemplateKey,
};

/// The port to which a connection goes.
fn connection_port(d: &Dest, head: &Head) -> u16
    ensures { result ≡ connection_port d.now head.now }
{
    if d.spec.port == 0 {
        head.dport
    } else {
        d.spec.port
    }
}

fn mark_for(key: ServiceKey) -> u32
    ensures { result ≡ mark_of key }
{
    match key {
        ServiceKey::Net { .. } => 0,
        ServiceKey::Mark(mark) => mark,
    }
}

fn first_state(proto: Proto) -> Option<TcpState>
    ensures { result ≡ state_before proto }
{
    match proto {
        Proto::Tcp => Some(TcpState::None0),
        Proto::Udp => None,
    }
}

fn make_entry<W: Whole, T: Tables<W>>(
    tables: &T,
    p: &Packet<'_>,
    service: &Service,
    d: &Dest,
    template: Option<TemplateId>,
) -> Entry
    requires { (T.state tables.now).now < 2 ^ 32 }
    ensures { result ≡ new_entry (T.state tables.now) (packet_of p.now) service.now d.now template }
{
    let state = state_then(first_state(p.proto), direction_of(d.spec.method), &p.head);
    let blank = Entry {
        id: tables.next_entry(),
        key: key_of_packet(p.proto, &p.head),
        server: Some(d.id),
        method: d.spec.method,
        daddr: d.spec.addr,
        dport: connection_port(d, &p.head),
        state: None,
        timeout: 0,
        deadline: 0,
        packets: 1,
        template,
        mark: mark_for(service.key),
    };
    put_in_state(tables.settings(), tables.moment(), state, &blank)
}

/// The connection gets its entry, which counts at its server.
fn enter<W: Whole, T: Tables<W>>(
    tables: &mut T,
    p: &Packet<'_>,
    e: &Entry,
    d: &Dest,
    room: Vec<u8>,
) -> Reply
    requires read { IsReadPacket p.now }
    requires sound { T.is_sound tables.old }
    requires free { T.is_free tables.old }
    requires serves { T.serves tables.old d.now }
    requires server { e.now.server ≡ Some d.now.id }
    requires id { e.now.id ≡ (T.state tables.old).next_entry }
    requires now { (T.state tables.old).now < 2 ^ 32 }
    requires room { T.has_room tables.old }
    requires records { 2 ≤ T.record_room tables.old }
    requires empty { room.items ≡ [] }
    requires space { length p.now.bytes.now + 20 ≤ vec_capacity room }
    ensures next { (result, T.state tables.new) ≡ enter (T.state tables.old) (packet_of p.now) e.now d.now }
    ensures sound { T.is_sound tables.new }
{
    let reply = forward(tables, p, e.method, e.daddr, e.dport, room);
    tables.enter(e, d);
    push_records(tables, first_state(p.proto), e);
    reply
}

fn leaves_no_entry(service: &Service, proto: Proto) -> bool
    ensures { result ≡ is_one_packet service.now proto }
{
    match proto {
        Proto::Tcp => false,
        Proto::Udp => service.one_packet,
    }
}

/// The packet goes to the server.
pub(crate) fn connect_to<W: Whole, T: Tables<W>>(
    tables: &mut T,
    p: &Packet<'_>,
    service: &Service,
    d: &Dest,
    template: Option<TemplateId>,
    room: Vec<u8>,
) -> Reply
    requires read { IsReadPacket p.now }
    requires sound { T.is_sound tables.old }
    requires free { T.is_free tables.old }
    requires serves { T.serves tables.old d.now }
    requires now { (T.state tables.old).now < 2 ^ 32 }
    requires room { T.has_room tables.old }
    requires records { 2 ≤ T.record_room tables.old }
    requires empty { room.items ≡ [] }
    requires space { length p.now.bytes.now + 20 ≤ vec_capacity room }
    ensures next { (result, T.state tables.new) ≡ connect_to (T.state tables.old) (packet_of p.now) service.now d.now template }
    ensures sound { T.is_sound tables.new }
{
    if leaves_no_entry(service, p.proto) {
        forward(
            tables,
            p,
            d.spec.method,
            d.spec.addr,
            connection_port(d, &p.head),
            room,
        )
    } else {
        let e = make_entry(tables, p, service, d, template);
        enter(tables, p, &e, d, room)
    }
}

fn make_template<W: Whole, T: Tables<W>>(
    tables: &T,
    key: TemplateKey,
    seconds: u32,
    d: &Dest,
) -> Template
    requires { (T.state tables.now).now < 2 ^ 32 }
    ensures { result ≡ new_template (T.state tables.now) key seconds d.now }
{
    Template {
        id: TemplateId(tables.next_template()),
        key,
        server: Some(d.id),
        method: d.spec.method,
        daddr: d.spec.addr,
        dport: d.spec.port,
        timeout: seconds,
        deadline: tables.moment() + u64::from(seconds),
    }
}

/// The picked server takes the connection; a persistent service keeps it in a new template.
fn take_pick<W: Whole, T: Tables<W>>(
    tables: &mut T,
    p: &Packet<'_>,
    service: &Service,
    d: &Dest,
    room: Vec<u8>,
) -> Reply
    requires read { IsReadPacket p.now }
    requires sound { T.is_sound tables.old }
    requires free { T.is_free tables.old }
    requires serves { T.serves tables.old d.now }
    requires now { (T.state tables.old).now < 2 ^ 32 }
    requires room { T.has_room tables.old }
    requires template_room { T.has_template_room tables.old }
    requires records { 2 ≤ T.record_room tables.old }
    requires empty { room.items ≡ [] }
    requires space { length p.now.bytes.now + 20 ≤ vec_capacity room }
    ensures next { (result, T.state tables.new) ≡ take_pick (T.state tables.old) (packet_of p.now) service.now d.now service.now.persist }
    ensures sound { T.is_sound tables.new }
{
    match service.persist {
        None => connect_to(tables, p, service, d, None, room),
        Some(seconds) => {
            let t = make_template(tables, key_for(service, p.head.src), seconds, d);
            tables.add_template(&t);
            connect_to(tables, p, service, d, Some(t.id), room)
        }
    }
}

/// The cursor becomes this one, and the picked server takes the connection.
fn move_on<W: Whole, T: Tables<W>>(
    tables: &mut T,
    p: &Packet<'_>,
    service: &Service,
    cursor: Cursor,
    d: &Dest,
    room: Vec<u8>,
) -> Reply
    requires read { IsReadPacket p.now }
    requires sound { T.is_sound tables.old }
    requires free { T.is_free tables.old }
    requires serves { T.serves tables.old d.now }
    requires now { (T.state tables.old).now < 2 ^ 32 }
    requires room { T.has_room tables.old }
    requires template_room { T.has_template_room tables.old }
    requires records { 2 ≤ T.record_room tables.old }
    requires empty { room.items ≡ [] }
    requires space { length p.now.bytes.now + 20 ≤ vec_capacity room }
    ensures next { (result, T.state tables.new) ≡ take_pick (with_cursor service.now.key cursor (T.state tables.old)) (packet_of p.now) service.now d.now service.now.persist }
    ensures sound { T.is_sound tables.new }
{
    tables.set_cursor(service.key, cursor);
    take_pick(tables, p, service, d, room)
}

fn pick_at<W: Whole, T: Tables<W>>(
    tables: &mut T,
    p: &Packet<'_>,
    service: &Service,
    cursor: Cursor,
    server: Option<Dest>,
    room: Vec<u8>,
) -> Reply
    requires read { IsReadPacket p.now }
    requires sound { T.is_sound tables.old }
    requires free { T.is_free tables.old }
    requires serves { IfSome server (T.serves tables.old) }
    requires now { (T.state tables.old).now < 2 ^ 32 }
    requires room { T.has_room tables.old }
    requires template_room { T.has_template_room tables.old }
    requires records { 2 ≤ T.record_room tables.old }
    requires empty { room.items ≡ [] }
    requires space { length p.now.bytes.now + 20 ≤ vec_capacity room }
    ensures next { (result, T.state tables.new) ≡ pick_at (T.state tables.old) (packet_of p.now) service.now cursor server }
    ensures sound { T.is_sound tables.new }
{
    match server {
        None => Reply::Drop(DropCause::NoDest),
        Some(d) => move_on(tables, p, service, cursor, &d, room),
    }
}

fn take_choice<W: Whole, T: Tables<W>>(
    tables: &mut T,
    p: &Packet<'_>,
    service: &Service,
    choice: Option<(usize, Cursor)>,
    room: Vec<u8>,
) -> Reply
    requires read { IsReadPacket p.now }
    requires sound { T.is_sound tables.old }
    requires free { T.is_free tables.old }
    requires now { (T.state tables.old).now < 2 ^ 32 }
    requires room { T.has_room tables.old }
    requires template_room { T.has_template_room tables.old }
    requires records { 2 ≤ T.record_room tables.old }
    requires empty { room.items ≡ [] }
    requires space { length p.now.bytes.now + 20 ≤ vec_capacity room }
    ensures next { (result, T.state tables.new) ≡ picked (T.state tables.old) (packet_of p.now) service.now choice }
    ensures sound { T.is_sound tables.new }
{
    match choice {
        None => Reply::Drop(DropCause::NoDest),
        Some((place, cursor)) => {
            let server = tables.nth_server(service.key, place);
            pick_at(tables, p, service, cursor, server, room)
        }
    }
}

fn pick_from(
    service: &Service,
    found: &Vec<Candidate>,
    addrs: &Vec<Addr>,
    p: &Packet<'_>,
) -> Option<(usize, Cursor)>
    requires weighed { AreWeighed found.now.items }
    requires addrs { vec_len addrs.now ≡ vec_len found.now }
    ensures { result ≡ pick service.now.scheduler found.now.items addrs.now.items service.now.cursor p.now.head.src p.now.head.dst }
{
    pick_server(
        service.scheduler,
        found,
        addrs,
        &service.cursor,
        p.head.src,
        p.head.dst,
    )
}

fn find_candidates<W: Whole, T: Tables<W>>(
    tables: &T,
    key: ServiceKey,
    view: &View,
    found: &mut Vec<Candidate>,
)
    requires sound { T.is_sound tables.now }
    requires holds { IfSome view.now.ended (T.holds tables.now) }
    requires empty { found.old.items ≡ [] }
    requires room { length (T.state tables.now).dests ≤ vec_capacity found.old }
    ensures items { found.new.items ≡ candidates key (seen_in view.now (T.state tables.now)).dests (seen_in view.now (T.state tables.now)).entries }
    ensures len { vec_len found.new ≡ length (servers_of key (seen_in view.now (T.state tables.now)).dests) }
{
    tables.list_candidates(key, view, found);
}

#[tactic(auto, using(crate::proofs::Leaving::addrs_in))]
fn find_addrs<W: Whole, T: Tables<W>>(
    tables: &T,
    key: ServiceKey,
    view: &View,
    addrs: &mut Vec<Addr>,
)
    requires sound { T.is_sound tables.now }
    requires empty { addrs.old.items ≡ [] }
    requires room { length (T.state tables.now).dests ≤ vec_capacity addrs.old }
    ensures items { addrs.new.items ≡ map (λ (d : Dest). d.spec.addr) (servers_of key (seen_in view.now (T.state tables.now)).dests) }
    ensures len { vec_len addrs.new ≡ length (servers_of key (seen_in view.now (T.state tables.now)).dests) }
{
    tables.list_addrs(key, addrs);
}

/// The place of the server that the scheduler picks among the service's, and the cursor that is left.
pub(crate) fn choose<W: Whole, T: Tables<W>>(
    tables: &T,
    p: &Packet<'_>,
    service: &Service,
    view: &View,
    lists: ServerLists,
) -> Option<(usize, Cursor)>
    requires sound { T.is_sound tables.now }
    requires holds { IfSome view.now.ended (T.holds tables.now) }
    requires lists { ServesAll lists (length (T.state tables.now).dests) }
    ensures { result ≡ choice_in (seen_in view.now (T.state tables.now)) (packet_of p.now) service.now }
{
    let ServerLists {
        mut candidates,
        mut addrs,
    } = lists;
    find_candidates(tables, service.key, view, &mut candidates);
    find_addrs(tables, service.key, view, &mut addrs);
    pick_from(service, &candidates, &addrs, p)
}

/// The scheduler picks, on the counts as they are now.
pub(crate) fn schedule<W: Whole, T: Tables<W>>(
    tables: &mut T,
    p: &Packet<'_>,
    service: &Service,
    rooms: Rooms,
) -> Reply
    requires read { IsReadPacket p.now }
    requires sound { T.is_sound tables.old }
    requires free { T.is_free tables.old }
    requires now { (T.state tables.old).now < 2 ^ 32 }
    requires room { T.has_room tables.old }
    requires template_room { T.has_template_room tables.old }
    requires records { 2 ≤ T.record_room tables.old }
    requires rooms { ServesFor rooms (length (T.state tables.old).dests) p.now }
    ensures next { (result, T.state tables.new) ≡ schedule (T.state tables.old) (packet_of p.now) service.now }
    ensures sound { T.is_sound tables.new }
{
    let Rooms { bytes, lists } = rooms;
    let choice = choose(tables, p, service, &AS_THEY_ARE, lists);
    take_choice(tables, p, service, choice, bytes)
}
