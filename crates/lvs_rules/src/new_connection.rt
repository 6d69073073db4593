//! A packet of no connection: its service, and the template of its client.
ghost use Rattle.std.specs.Prelude.{◌≡◌, ◌<◌, ◌≤◌, ◌^◌, IfSome, length};
ghost use Rattle.lvs_rules.specs.Packets.{packet_of, IsReadPacket, ServesFor};
ghost use Rattle.lvs_model.specs.Binding.{put_template};
ghost use Rattle.lvs_types.specs.declared.dest.Dest.{Dest};
ghost use Rattle.lvs_rules.specs.Changes.{IsTemplateUpdate};
ghost use Rattle.lvs_model.specs.Persistence.{usable_server};
ghost use Rattle.lvs_model.specs.Scheduling.{renewed, use_template, try_template, persist_by, serve_packet, admit, connect};

use crate::binding::tried;
use crate::headers::connects;
use crate::packet::{Packet, Rooms};
use crate::persistence::{find_usable, key_for};
use crate::scheduling::{connect_to, schedule};
use crate::tables::{Tables, Whole};
use lvs_types::{Dest, Reply, Service, Template};

fn renew<W: Whole, T: Tables<W>>(tables: &T, seconds: u32, t: &Template) -> Template
    requires { (T.state tables.now).now < 2 ^ 32 }
    ensures { result ≡ renewed (T.state tables.now) seconds t.now }
{
    Template {
        timeout: seconds,
        deadline: tables.moment() + u64::from(seconds),
        ..*t
    }
}

/// A template that was tried gives its server, or the scheduler picks.
fn use_template<W: Whole, T: Tables<W>>(
    tables: &mut T,
    p: &Packet<'_>,
    service: &Service,
    seconds: u32,
    t: &Template,
    server: Option<Dest>,
    rooms: Rooms,
) -> Reply
    requires read { IsReadPacket p.now }
    requires sound { T.is_sound tables.old }
    requires free { T.is_free tables.old }
    requires gives { T.gives tables.old t.now }
    requires serves { IfSome server (T.serves tables.old) }
    requires now { (T.state tables.old).now < 2 ^ 32 }
    requires room { T.has_room tables.old }
    requires template_room { T.has_template_room tables.old }
    requires records { 2 ≤ T.record_room tables.old }
    requires rooms { ServesFor rooms (length (T.state tables.old).dests) p.now }
    ensures next { (result, T.state tables.new) ≡ use_template (T.state tables.old) (packet_of p.now) service.now seconds t.now server }
    ensures sound { T.is_sound tables.new }
{
    match server {
        None => schedule(tables, p, service, rooms),
        Some(d) => {
            let renewed = renew(tables, seconds, t);
            tables.put_template(t, &renewed);
            connect_to(tables, p, service, &d, Some(t.id), rooms.bytes)
        }
    }
}

fn keep_tried<W: Whole, T: Tables<W>>(tables: &mut T, before: &Template, t: &Template)
    requires sound { T.is_sound tables.old }
    requires gives { T.gives tables.old before.now }
    requires names { IsTemplateUpdate before.now t.now }
    ensures next { T.state tables.new ≡ record (T.state tables.old) { templates = put_template t.now (T.state tables.old).templates } }
    ensures sound { T.is_sound tables.new }
    ensures gives { T.gives tables.new t.now }
    ensures free { T.is_free tables.old → T.is_free tables.new }
    ensures room { T.has_room tables.old → T.has_room tables.new }
    ensures template_room { T.has_template_room tables.old → T.has_template_room tables.new }
    ensures records { T.record_room tables.new ≡ T.record_room tables.old }
    ensures dests { length (T.state tables.new).dests ≡ length (T.state tables.old).dests }
{
    tables.put_template(before, t);
}

/// The template is tried: it is bound where it can be, and that stays.
fn try_template<W: Whole, T: Tables<W>>(
    tables: &mut T,
    p: &Packet<'_>,
    service: &Service,
    seconds: u32,
    before: &Template,
    t: &Template,
    rooms: Rooms,
) -> Reply
    requires read { IsReadPacket p.now }
    requires sound { T.is_sound tables.old }
    requires free { T.is_free tables.old }
    requires gives { T.gives tables.old before.now }
    requires names { IsTemplateUpdate before.now t.now }
    requires now { (T.state tables.old).now < 2 ^ 32 }
    requires room { T.has_room tables.old }
    requires template_room { T.has_template_room tables.old }
    requires records { 2 ≤ T.record_room tables.old }
    requires rooms { ServesFor rooms (length (T.state tables.old).dests) p.now }
    ensures next { (result, T.state tables.new) ≡ try_template (T.state tables.old) (packet_of p.now) service.now seconds t.now }
    ensures sound { T.is_sound tables.new }
{
    keep_tried(tables, before, t);
    let server = find_usable(tables, t.server);
    use_template(tables, p, service, seconds, t, server, rooms)
}

fn persist_by<W: Whole, T: Tables<W>>(
    tables: &mut T,
    p: &Packet<'_>,
    service: &Service,
    seconds: u32,
    template: Option<Template>,
    rooms: Rooms,
) -> Reply
    requires read { IsReadPacket p.now }
    requires sound { T.is_sound tables.old }
    requires free { T.is_free tables.old }
    requires gives { IfSome template (T.gives tables.old) }
    requires now { (T.state tables.old).now < 2 ^ 32 }
    requires room { T.has_room tables.old }
    requires template_room { T.has_template_room tables.old }
    requires records { 2 ≤ T.record_room tables.old }
    requires rooms { ServesFor rooms (length (T.state tables.old).dests) p.now }
    ensures next { (result, T.state tables.new) ≡ persist_by (T.state tables.old) (packet_of p.now) service.now seconds template }
    ensures sound { T.is_sound tables.new }
{
    match template {
        None => schedule(tables, p, service, rooms),
        Some(t) => {
            let after = tried(tables, t);
            try_template(tables, p, service, seconds, &t, &after, rooms)
        }
    }
}

fn serve_packet<W: Whole, T: Tables<W>>(
    tables: &mut T,
    p: &Packet<'_>,
    service: &Service,
    rooms: Rooms,
) -> Reply
    requires read { IsReadPacket p.now }
    requires sound { T.is_sound tables.old }
    requires free { T.is_free tables.old }
    requires now { (T.state tables.old).now < 2 ^ 32 }
    requires room { T.has_room tables.old }
    requires template_room { T.has_template_room tables.old }
    requires records { 2 ≤ T.record_room tables.old }
    requires rooms { ServesFor rooms (length (T.state tables.old).dests) p.now }
    ensures next { (result, T.state tables.new) ≡ serve_packet (T.state tables.old) (packet_of p.now) service.now service.now.persist }
    ensures sound { T.is_sound tables.new }
{
    match service.persist {
        None => schedule(tables, p, service, rooms),
        Some(seconds) => {
            let template = tables.template(&key_for(service, p.head.src));
            persist_by(tables, p, service, seconds, template, rooms)
        }
    }
}

/// A packet of no connection needs a service, and has to be one that may make a connection.
pub(crate) fn begin_connection<W: Whole, T: Tables<W>>(
    tables: &mut T,
    p: &Packet<'_>,
    rooms: Rooms,
) -> Reply
    requires read { IsReadPacket p.now }
    requires sound { T.is_sound tables.old }
    requires free { T.is_free tables.old }
    requires now { (T.state tables.old).now < 2 ^ 32 }
    requires room { T.has_room tables.old }
    requires template_room { T.has_template_room tables.old }
    requires records { 2 ≤ T.record_room tables.old }
    requires rooms { ServesFor rooms (length (T.state tables.old).dests) p.now }
    ensures next { (result, T.state tables.new) ≡ connect (T.state tables.old) (packet_of p.now) }
    ensures sound { T.is_sound tables.new }
{
    let service = tables.packet_service(p.proto, p.head.dst, p.head.dport, p.mark);
    let Some(service) = service else {
        return Reply::Pass;
    };
    if !connects(tables.settings(), p.proto, &p.head) {
        return Reply::Pass;
    }
    serve_packet(tables, p, &service, rooms)
}
