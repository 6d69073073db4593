//! Look-ups and edits of the services.
ghost use Rattle.std.specs.Prelude.{◌≡◌};
ghost use Rattle.std.specs.List.{list_any, filter, position};
ghost use Rattle.lvs_types.specs.declared.service.Service.{Service};
ghost use Rattle.lvs_model.specs.Lists.{update_first, without};
ghost use Rattle.lvs_model.specs.Lookups.{has_service_key, service_at, marked_service, find_service};
ghost use Rattle.lvs_flat.specs.Servers.{step_back_to};

use lvs_types::{Addr, Cursor, DestId, Proto, Service, ServiceKey};

/// The service of a key.
pub(crate) fn find_key(services: &[Service], key: ServiceKey) -> Option<Service>
    ensures { result ≡ service_at key services.now }
{
    for s in services {
        if s.key == key {
            return Some(*s);
        }
    }
    None
}

pub(crate) fn is_service(services: &[Service], key: ServiceKey) -> bool
    ensures { result ≡ list_any (has_service_key key) services.now }
{
    services.iter().any(|s| s.key == key)
}

fn find_marked(services: &[Service], mark: u32) -> Option<Service>
    ensures { result ≡ marked_service mark services.now }
{
    if mark == 0 {
        None
    } else {
        find_key(services, ServiceKey::Mark(mark))
    }
}

/// The service of a packet: of its mark, else of its address and port, else the one of port 0.
pub(crate) fn find_packet_service(
    services: &[Service],
    proto: Proto,
    addr: Addr,
    port: u16,
    mark: u32,
) -> Option<Service>
    ensures { result ≡ find_service proto addr port mark services.now }
{
    find_marked(services, mark)
        .or(find_key(services, ServiceKey::Net { proto, addr, port }))
        .or(find_key(
            services,
            ServiceKey::Net {
                proto,
                addr,
                port: 0,
            },
        ))
}

fn place_of(services: &[Service], key: ServiceKey) -> Option<usize>
    ensures { result ≡ position (has_service_key key) services.now }
{
    services.iter().position(|s| s.key == key)
}

/// Gives a service its cursor.
pub(crate) fn set_cursor(services: &mut [Service], key: ServiceKey, cursor: Cursor)
    ensures { services.new ≡ update_first (has_service_key key) (λ (service : Service). record service { cursor = cursor }) services.old }
{
    if let Some(place) = place_of(services, key) {
        services[place].cursor = cursor;
    }
}

/// Puts a service in the place of the one of its key.
pub(crate) fn replace(services: &mut [Service], service: Service)
    ensures { services.new ≡ update_first (has_service_key service.key) (λ _. service) services.old }
{
    if let Some(place) = place_of(services, service.key) {
        services[place] = service;
    }
}

/// Takes out the service of a key.
pub(crate) fn remove(services: &mut Vec<Service>, key: ServiceKey)
    ensures { services.new.items ≡ without (has_service_key key) services.old.items }
{
    services.retain(|s| s.key != key);
}

fn stepped_back(service: &Service, id: DestId, before: Option<DestId>) -> Service
    ensures { result ≡ step_back_to id before service.now }
{
    if service.cursor.last == Some(id) {
        Service {
            cursor: Cursor {
                last: before,
                cw: service.cursor.cw,
            },
            ..*service
        }
    } else {
        *service
    }
}

/// A cursor of the service that names the server goes back to the one before it.
pub(crate) fn set_step_back(
    services: &mut [Service],
    key: ServiceKey,
    id: DestId,
    before: Option<DestId>,
)
    ensures { services.new ≡ update_first (has_service_key key) (step_back_to id before) services.old }
{
    if let Some(place) = place_of(services, key) {
        let service = services[place];
        services[place] = stepped_back(&service, id, before);
    }
}
