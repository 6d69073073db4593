//! Searches and changes of a list of services by a key.
ghost use Rattle.std.specs.Prelude.{◌≡◌};
ghost use Rattle.std.specs.Option.{option_copied};
ghost use Rattle.std.specs.List.{list_any, position};
ghost use Rattle.lvs_types.specs.declared.service.Service.{Service};
ghost use Rattle.lvs_model.specs.Lists.{update_first, without};
ghost use Rattle.lvs_model.specs.Lookups.{has_service_key, service_at};

use lvs_types::{Cursor, Service, ServiceKey};

/// The service of a key.
pub(crate) fn find<'a>(services: &'a [Service], key: &ServiceKey) -> Option<&'a Service>
    ensures { option_copied result ≡ service_at key.now services.now }
{
    for service in services {
        if service.key == *key {
            return Some(service);
        }
    }
    None
}

/// Whether a service has the key.
pub(crate) fn is_there(services: &[Service], key: &ServiceKey) -> bool
    ensures { result ≡ list_any (has_service_key key.now) services.now }
{
    services.iter().any(|service| service.key == *key)
}

fn place_of(services: &[Service], key: &ServiceKey) -> Option<usize>
    ensures { result ≡ position (has_service_key key.now) services.now }
{
    services.iter().position(|service| service.key == *key)
}

/// Puts a service in the place of the one of its key.
pub(crate) fn replace(services: &mut [Service], service: Service)
    ensures { services.new ≡ update_first (has_service_key service.key) (λ _. service) services.old }
{
    if let Some(place) = place_of(services, &service.key) {
        services[place] = service;
    }
}

/// Gives the service of a key its cursor.
pub(crate) fn turn(services: &mut [Service], key: &ServiceKey, cursor: Cursor)
    ensures { services.new ≡ update_first (has_service_key key.now) (λ (service : Service). record service { cursor = cursor }) services.old }
{
    if let Some(place) = place_of(services, key) {
        services[place].cursor = cursor;
    }
}

/// Takes out the services of a key.
pub(crate) fn take_out(services: &mut Vec<Service>, key: &ServiceKey)
    ensures { services.new.items ≡ without (has_service_key key.now) services.old.items }
{
    services.retain(|service| service.key != *key);
}
