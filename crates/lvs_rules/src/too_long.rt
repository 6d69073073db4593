//! Whether a packet is too long for its tunnel: told before anything changes, and by reading alone.
ghost use Rattle.std.specs.Prelude.{◌≡◌, ◌+◌, ◌<◌, ◌^◌, Some, IfSome, length};
ghost use Rattle.lvs_rules.specs.Packets.{packet_of, ServesAll};
ghost use Rattle.lvs_rules.specs.Views.{seen_in};
ghost use Rattle.lvs_rules.specs.TooLong.{HaveDistinctIds, IfThere, says_too_long, exceeds_to, choice_in, exceeds_choice, exceeds_pick, exceeds_used, exceeds_tried, exceeds_template, exceeds_service, exceeds_connection, overload_left, view_after, dest_bound, bound_with, bound_in, exceeds_bound, exceeds_arrived};
ghost use Rattle.lvs_model.specs.Counts.{total};
ghost use Rattle.lvs_model.specs.Lists.{without};
ghost use Rattle.lvs_model.specs.Lookups.{entry_at, has_entry_id};
ghost use Rattle.lvs_model.specs.Packets.{key_of};
ghost use Rattle.lvs_model.specs.WellFormed.{IsThere};
ghost use Rattle.lvs_model.specs.Incoming.{arrive};

use crate::binding::{bound, find_for_entry, tried};
use crate::forwarding::exceeds;
use crate::headers::connects;
use crate::known_connection::standing_of;
use crate::overload::{reaches, relieved};
use crate::packet::{Packet, ServerLists};
use crate::persistence::{find_usable, key_for};
use crate::scheduling::choose;
use crate::tables::{Tables, Whole};
use crate::view::{AS_THEY_ARE, Overload, View};
use lvs_model::incoming::Standing;
use lvs_types::{Cursor, Dest, DestId, Entry, Service, Template};

/// Whether the packet would be too long for a tunnel to the server, if there is one.
fn exceeds_at(p: &Packet<'_>, server: Option<Dest>) -> bool
    ensures { result ≡ exceeds_to p.now.head server }
{
    match server {
        None => false,
        Some(d) => exceeds(&p.head, d.spec.method),
    }
}

fn exceeds_chosen<W: Whole, T: Tables<W>>(
    tables: &T,
    p: &Packet<'_>,
    service: &Service,
    view: &View,
    choice: Option<(usize, Cursor)>,
) -> bool
    requires sound { T.is_sound tables.now }
    ensures { result ≡ exceeds_choice (seen_in view.now (T.state tables.now)).dests (packet_of p.now) service.now choice }
{
    match choice {
        None => false,
        Some((place, _)) => exceeds_at(p, tables.nth_server(service.key, place)),
    }
}

/// The scheduler picks, on the counts as the view shows them, and the cursor stays.
fn exceeds_picked<W: Whole, T: Tables<W>>(
    tables: &T,
    p: &Packet<'_>,
    service: &Service,
    view: &View,
    lists: ServerLists,
) -> bool
    requires sound { T.is_sound tables.now }
    requires holds { IfSome view.now.ended (T.holds tables.now) }
    requires lists { ServesAll lists (length (T.state tables.now).dests) }
    ensures { result ≡ exceeds_pick (seen_in view.now (T.state tables.now)) (packet_of p.now) service.now }
{
    let choice = choose(tables, p, service, view, lists);
    exceeds_chosen(tables, p, service, view, choice)
}

fn exceeds_usable<W: Whole, T: Tables<W>>(
    tables: &T,
    p: &Packet<'_>,
    service: &Service,
    view: &View,
    server: Option<Dest>,
    lists: ServerLists,
) -> bool
    requires sound { T.is_sound tables.now }
    requires holds { IfSome view.now.ended (T.holds tables.now) }
    requires lists { ServesAll lists (length (T.state tables.now).dests) }
    ensures { result ≡ exceeds_used (exceeds_pick (seen_in view.now (T.state tables.now)) (packet_of p.now) service.now) p.now.head server }
{
    match server {
        None => exceeds_picked(tables, p, service, view, lists),
        Some(d) => exceeds(&p.head, d.spec.method),
    }
}

/// A template that was tried gives its server, or the scheduler picks.
fn exceeds_by_template<W: Whole, T: Tables<W>>(
    tables: &T,
    p: &Packet<'_>,
    service: &Service,
    view: &View,
    t: Template,
    lists: ServerLists,
) -> bool
    requires sound { T.is_sound tables.now }
    requires holds { IfSome view.now.ended (T.holds tables.now) }
    requires lists { ServesAll lists (length (T.state tables.now).dests) }
    ensures { result ≡ exceeds_template (seen_in view.now (T.state tables.now)) (packet_of p.now) service.now (Some t) }
{
    let t = tried(tables, t);
    let server = find_usable(tables, t.server);
    exceeds_usable(tables, p, service, view, server, lists)
}

fn exceeds_served<W: Whole, T: Tables<W>>(
    tables: &T,
    p: &Packet<'_>,
    service: &Service,
    view: &View,
    lists: ServerLists,
) -> bool
    requires sound { T.is_sound tables.now }
    requires holds { IfSome view.now.ended (T.holds tables.now) }
    requires lists { ServesAll lists (length (T.state tables.now).dests) }
    ensures { result ≡ exceeds_service (seen_in view.now (T.state tables.now)) (packet_of p.now) service.now service.now.persist }
{
    if service.persist.is_none() {
        return exceeds_picked(tables, p, service, view, lists);
    }
    match tables.template(&key_for(service, p.head.src)) {
        None => exceeds_picked(tables, p, service, view, lists),
        Some(t) => exceeds_by_template(tables, p, service, view, t, lists),
    }
}

/// Whether a packet of no connection is too long.
fn exceeds_connected<W: Whole, T: Tables<W>>(
    tables: &T,
    p: &Packet<'_>,
    view: &View,
    lists: ServerLists,
) -> bool
    requires sound { T.is_sound tables.now }
    requires holds { IfSome view.now.ended (T.holds tables.now) }
    requires lists { ServesAll lists (length (T.state tables.now).dests) }
    ensures { result ≡ exceeds_connection (seen_in view.now (T.state tables.now)) (packet_of p.now) }
{
    let service = tables.packet_service(p.proto, p.head.dst, p.head.dport, p.mark);
    let Some(service) = service else {
        return false;
    };
    connects(tables.settings(), p.proto, &p.head)
        && exceeds_served(tables, p, &service, view, lists)
}

/// What would hold of the server once the entry had ended.
fn left_overload<W: Whole, T: Tables<W>>(
    tables: &T,
    e: &Entry,
    server: Option<Dest>,
) -> Option<Overload>
    requires sound { T.is_sound tables.now }
    requires holds { T.holds tables.now e.now }
    requires there { IfThere (T.state tables.now).dests server }
    ensures { result ≡ overload_left (without (has_entry_id e.now.id) (T.state tables.now).entries) server }
{
    match server {
        None => None,
        Some(d) => Some(Overload {
            server: d.id,
            overloaded: relieved(&d.spec, tables.count_others(e, d.id), d.overloaded),
        }),
    }
}

/// The tables as they would be once the entry had ended.
fn without_entry<W: Whole, T: Tables<W>>(tables: &T, e: &Entry, server: Option<Dest>) -> View
    requires sound { T.is_sound tables.now }
    requires holds { T.holds tables.now e.now }
    requires there { IfThere (T.state tables.now).dests server }
    ensures { result ≡ view_after (T.state tables.now) e.now server }
{
    View {
        ended: Some(*e),
        overload: left_overload(tables, e, server),
    }
}

/// An entry and the server that it names.
#[derive(Clone, Copy)]
pub(crate) struct Bound {
    /// As it stands in the tables.
    pub found: Entry,
    /// As it would be bound.
    pub entry: Entry,
    pub server: Option<Dest>,
}

/// The server with one more entry.
fn with_entry<W: Whole, T: Tables<W>>(tables: &T, e: &Entry, d: &Dest) -> Dest
    requires sound { T.is_sound tables.now }
    requires holds { T.holds tables.now e.now }
    requires there { IsThere (T.state tables.now).dests (Some d.now.id) }
    ensures { result ≡ dest_bound (T.state tables.now) e.now d.now }
{
    let total = tables.count_others(e, d.id) + 1;
    Dest {
        overloaded: d.overloaded || reaches(&d.spec, total),
        ..*d
    }
}

fn bound_by<W: Whole, T: Tables<W>>(tables: &T, e: Entry, server: Option<Dest>) -> Bound
    requires sound { T.is_sound tables.now }
    requires holds { T.holds tables.now e }
    requires there { IfThere (T.state tables.now).dests server }
    ensures bound { result ≡ bound_with (T.state tables.now) e server }
    ensures found { result.found ≡ e }
    ensures there { IfThere (T.state tables.now).dests result.server }
{
    match server {
        None => Bound {
            found: e,
            entry: e,
            server: None,
        },
        Some(d) => Bound {
            found: e,
            entry: bound(&e, &d),
            server: Some(with_entry(tables, &e, &d)),
        },
    }
}

/// The entry as it would be bound, and the server that it would name.
#[tactic(auto, using(crate::proofs::Named::there_by_id, crate::proofs::Named::there_for_entry))]
fn as_bound<W: Whole, T: Tables<W>>(tables: &T, e: Entry) -> Bound
    requires sound { T.is_sound tables.now }
    requires holds { T.holds tables.now e }
    ensures bound { result ≡ bound_in (T.state tables.now) e e.server }
    ensures found { result.found ≡ e }
    ensures there { IfThere (T.state tables.now).dests result.server }
{
    match e.server {
        Some(id) => Bound {
            found: e,
            entry: e,
            server: tables.server(id),
        },
        None => {
            let server = find_for_entry(tables, &e);
            bound_by(tables, e, server)
        }
    }
}

/// Whether a packet whose entry is there is too long.
fn exceeds_known<W: Whole, T: Tables<W>>(
    tables: &T,
    p: &Packet<'_>,
    b: &Bound,
    lists: ServerLists,
) -> bool
    requires sound { T.is_sound tables.now }
    requires holds { T.holds tables.now b.now.found }
    requires there { IfThere (T.state tables.now).dests b.now.server }
    requires lists { ServesAll lists (length (T.state tables.now).dests) }
    ensures { result ≡ exceeds_bound (T.state tables.now) (packet_of p.now) b.now }
{
    match standing_of(tables.settings(), p, &b.entry, b.server) {
        Standing::Reused => {
            let view = without_entry(tables, &b.found, b.server);
            exceeds_connected(tables, p, &view, lists)
        }
        Standing::ServerGone => false,
        Standing::InUse => exceeds(&p.head, b.entry.method),
    }
}

/// Whether the packet is too long for its tunnel.
pub(crate) fn is_too_long<W: Whole, T: Tables<W>>(
    tables: &T,
    p: &Packet<'_>,
    found: Option<Entry>,
    lists: ServerLists,
) -> bool
    requires sound { T.is_sound tables.now }
    requires holds { IfSome found (T.holds tables.now) }
    requires lists { ServesAll lists (length (T.state tables.now).dests) }
    ensures { result ≡ exceeds_arrived (T.state tables.now) (packet_of p.now) found }
{
    match found {
        None => exceeds_connected(tables, p, &AS_THEY_ARE, lists),
        Some(e) => exceeds_known(tables, p, &as_bound(tables, e), lists),
    }
}
