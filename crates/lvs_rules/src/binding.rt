//! Binding: an entry or a template finds the server at its address.
ghost use Rattle.std.specs.Prelude.{◌≡◌, None, IfSome};
ghost use Rattle.lvs_rules.specs.Changes.{IsTemplateUpdate};
ghost use Rattle.lvs_model.specs.Binding.{binding_in, server_for_entry, server_for_template, exact_service, template_service, bound_to, bind_entry, try_binding, bind_template, template_bound_to, template_tried};

use crate::tables::{Tables, Whole};
use lvs_types::{Addr, Dest, Entry, Proto, Service, ServiceKey, Template, TemplateKey};

fn find_in<W: Whole, T: Tables<W>>(
    tables: &T,
    service: Option<Service>,
    daddr: Addr,
    dport: u16,
    vport: u16,
) -> Option<Dest>
    requires sound { T.is_sound tables.now }
    ensures server { result ≡ binding_in service daddr dport vport (T.state tables.now).dests }
    ensures serves { IfSome result (T.serves tables.now) }
{
    match service {
        None => None,
        Some(service) => tables.server_for(service.key, daddr, dport, vport),
    }
}

/// The server for an entry: in the service of its mark, protocol and virtual side.
pub(crate) fn find_for_entry<W: Whole, T: Tables<W>>(tables: &T, e: &Entry) -> Option<Dest>
    requires sound { T.is_sound tables.now }
    ensures server { result ≡ server_for_entry (T.state tables.now).services (T.state tables.now).dests e.now }
    ensures serves { IfSome result (T.serves tables.now) }
{
    let service = tables.packet_service(e.key.proto, e.key.vaddr, e.key.vport, e.mark);
    find_in(tables, service, e.daddr, e.dport, e.key.vport)
}

fn find_exact<W: Whole, T: Tables<W>>(
    tables: &T,
    proto: Option<Proto>,
    key: &TemplateKey,
) -> Option<Service>
    ensures { result ≡ exact_service proto key.now (T.state tables.now).services }
{
    match proto {
        None => None,
        Some(proto) => tables.service(ServiceKey::Net {
            proto,
            addr: key.vaddr,
            port: key.vport,
        }),
    }
}

fn find_template_service<W: Whole, T: Tables<W>>(tables: &T, key: &TemplateKey) -> Option<Service>
    ensures { result ≡ template_service key.now (T.state tables.now).services }
{
    if key.code == 0 {
        tables.service(ServiceKey::Mark(key.vaddr.number))
    } else {
        find_exact(tables, Proto::of_code(key.code), key)
    }
}

/// The server for a template.
fn find_for_template<W: Whole, T: Tables<W>>(tables: &T, t: &Template) -> Option<Dest>
    requires sound { T.is_sound tables.now }
    ensures { result ≡ server_for_template (T.state tables.now).services (T.state tables.now).dests t.now }
{
    let service = find_template_service(tables, &t.key);
    find_in(tables, service, t.daddr, t.dport, t.key.vport)
}

/// The entry names the server and takes its method.
pub fn bound(e: &Entry, d: &Dest) -> Entry
    ensures { result ≡ bound_to d.now e.now }
{
    Entry {
        server: Some(d.id),
        method: d.spec.method,
        ..*e
    }
}

fn bind<W: Whole, T: Tables<W>>(tables: &mut T, e: Entry, server: Option<Dest>) -> Entry
    requires sound { T.is_sound tables.old }
    requires holds { T.holds tables.old e }
    requires serves { IfSome server (T.serves tables.old) }
    requires unbound { e.server ≡ None }
    ensures bound { (result, T.state tables.new) ≡ bind_entry (T.state tables.old) e server }
    ensures sound { T.is_sound tables.new }
    ensures holds { T.holds tables.new result }
    ensures room { T.has_room tables.old → T.has_room tables.new }
    ensures template_room { T.has_template_room tables.old → T.has_template_room tables.new }
    ensures records { T.record_room tables.new ≡ T.record_room tables.old }
    ensures now { (T.state tables.new).now ≡ (T.state tables.old).now }
    ensures packets { result.packets ≡ e.packets }
{
    match server {
        None => e,
        Some(d) => tables.bind_entry(&e, &d),
    }
}

/// Binds an unbound entry where a server is found, and gives the entry as it then is.
pub(crate) fn try_to_bind<W: Whole, T: Tables<W>>(tables: &mut T, e: Entry) -> Entry
    requires sound { T.is_sound tables.old }
    requires holds { T.holds tables.old e }
    ensures bound { (result, T.state tables.new) ≡ try_binding (T.state tables.old) e e.server }
    ensures sound { T.is_sound tables.new }
    ensures holds { T.holds tables.new result }
    ensures room { T.has_room tables.old → T.has_room tables.new }
    ensures template_room { T.has_template_room tables.old → T.has_template_room tables.new }
    ensures records { T.record_room tables.new ≡ T.record_room tables.old }
    ensures now { (T.state tables.new).now ≡ (T.state tables.old).now }
    ensures packets { result.packets ≡ e.packets }
{
    match e.server {
        Some(_) => e,
        None => {
            let server = find_for_entry(tables, &e);
            bind(tables, e, server)
        }
    }
}

/// Binds an unbound entry where a server is found.
pub(crate) fn rebind<W: Whole, T: Tables<W>>(tables: &mut T, e: Entry)
    requires sound { T.is_sound tables.old }
    requires holds { T.holds tables.old e }
    ensures next { T.state tables.new ≡ (try_binding (T.state tables.old) e e.server).1 }
    ensures sound { T.is_sound tables.new }
{
    try_to_bind(tables, e);
}

fn with_server(t: Template, server: Option<Dest>) -> Template
    requires unbound { t.server ≡ None }
    ensures bound { result ≡ bind_template t server }
    ensures names { IsTemplateUpdate t result }
{
    match server {
        None => t,
        Some(d) => Template {
            server: Some(d.id),
            method: d.spec.method,
            ..t
        },
    }
}

/// The template, bound where it was unbound and a server is found.
pub(crate) fn tried<W: Whole, T: Tables<W>>(tables: &T, t: Template) -> Template
    requires sound { T.is_sound tables.now }
    ensures tried { result ≡ template_tried (T.state tables.now) t t.server }
    ensures names { IsTemplateUpdate t result }
{
    match t.server {
        Some(_) => t,
        None => {
            let server = find_for_template(tables, &t);
            with_server(t, server)
        }
    }
}
