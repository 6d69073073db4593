//! Persistence: the template of a client and a service.
ghost use Rattle.std.specs.Prelude.{◌≡◌, Some, IfSome};
ghost use Rattle.lvs_model.specs.Persistence.{masked, template_key_in, template_key, takes_templates, usable, usable_server};

use crate::tables::{Tables, Whole};
use lvs_types::{Addr, Dest, DestId, Service, ServiceKey, Settings, TemplateKey};

/// The leading bits of an address, the others cleared.
fn mask(bits: u8, addr: Addr) -> Addr
    ensures { result ≡ masked bits addr }
{
    let block = 2u64.pow(u32::from(32u8.saturating_sub(bits)));
    Addr {
        number: (u64::from(addr.number) / block * block) as u32,
    }
}

fn key_in(key: ServiceKey, client: Addr) -> TemplateKey
    ensures { result ≡ template_key_in key client }
{
    match key {
        ServiceKey::Net { proto, addr, port } => TemplateKey {
            code: proto.code(),
            client,
            vaddr: addr,
            vport: port,
        },
        ServiceKey::Mark(mark) => TemplateKey {
            code: 0,
            client,
            vaddr: Addr { number: mark },
            vport: 0,
        },
    }
}

/// The key of the client's template.
pub(crate) fn key_for(service: &Service, client: Addr) -> TemplateKey
    ensures { result ≡ template_key service.now client }
{
    key_in(service.key, mask(service.mask_bits, client))
}

fn takes(settings: &Settings, d: &Dest) -> bool
    ensures { result ≡ takes_templates settings.now d.now }
{
    d.live && !(0 < settings.expire_quiescent && d.spec.weight == 0)
}

fn if_usable(settings: &Settings, server: Option<Dest>) -> Option<Dest>
    ensures usable { result ≡ usable settings.now server }
    ensures same { IfSome result (λ d. server ≡ Some d) }
{
    match server {
        None => None,
        Some(d) => { if takes(settings, &d) { Some(d) } else { None } }
    }
}

/// The server that a template gives, if it is usable.
pub(crate) fn find_usable<W: Whole, T: Tables<W>>(
    tables: &T,
    server: Option<DestId>,
) -> Option<Dest>
    requires sound { T.is_sound tables.now }
    ensures server { result ≡ usable_server (T.state tables.now).settings (T.state tables.now).dests server }
    ensures serves { IfSome result (T.serves tables.now) }
{
    match server {
        None => None,
        Some(id) => if_usable(tables.settings(), tables.server(id)),
    }
}
