//! The table of services.
ghost use Rattle.std.specs.Prelude.{◌≡◌, ◌≢◌, ◌↔◌, true, false, List, [], ◌∷◌, ◌++◌, Ok, Err, if◌then◌else◌, IfOk, OnOk, OnErr};
ghost use Rattle.std.specs.Option.{option_copied};
ghost use Rattle.std.specs.List.{list_any, IsDistinct};
ghost use Rattle.lvs_types.specs.declared.service.Service.{Service};
ghost use Rattle.lvs_model.specs.Lists.{update_first, without};
ghost use Rattle.lvs_model.specs.Lookups.{has_service_key, service_at, marked_service, find_service};
ghost use Rattle.lvs_model.specs.Edits.{with_fresh_cursor};
ghost use Rattle.lvs_model.specs.Same.{service_key_eq};
ghost use Rattle.lvs_model.specs.WellFormed.{service_keys};
ghost use Rattle.lvs_services.specs.Services.{is_known, edit_answer};

use crate::keys;
use crate::refused::ServiceRefused;
use lvs_types::{Addr, Cursor, NoMemory, Proto, Service, ServiceKey};
use std::alloc::Global;
use std::marker::Model;

/// The cursor of a scheduler that begins anew.
const FRESH_CURSOR: Cursor = Cursor { last: None, cw: 0 };

/// Services in order of addition, each key once.
#[derive(Debug, Drop)]
pub struct Services {
    services: Vec<Service>,
}

impl Model for Services {
    ghost use Rattle.std.specs.Prelude.{List};
    ghost use Rattle.lvs_types.specs.declared.service.Service.{Service};
    ghost use Rattle.std.specs.List.{IsDistinct};
    ghost use Rattle.lvs_model.specs.Same.{service_key_eq};
    ghost use Rattle.lvs_model.specs.WellFormed.{service_keys};

    ghost Value = { List Service };

    ghost view = { λ s. s.services.items };

    ghost invariant = { λ s. IsDistinct service_key_eq (service_keys s.services.items) };
}

impl Services {
    /// No services.
    pub fn new(alloc: Global) -> Result<Services, NoMemory>
        ensures { IfOk result (λ s. s ≡ []) }
    {
        Ok(Services {
            services: Vec::new(alloc),
        })
    }

    /// Puts a service last, with a cursor that begins anew. It is refused with Exists where a
    /// service of its key is there, and else only for want of memory.
    pub fn add(&mut self, service: Service) -> Result<(), ServiceRefused>
        ensures exists { (result ≡ Err ServiceRefused.Exists) ↔ (is_known service.key self.old ≡ true) }
        ensures no_other { result ≢ Err ServiceRefused.NoService }
        ensures ok { OnOk result (self.new ≡ self.old ++ with_fresh_cursor service ∷ []) }
        ensures err { OnErr result (self.new ≡ self.old) }
    {
        if keys::is_there(&self.services, &service.key) {
            return Err(ServiceRefused::Exists);
        }
        let fresh = Service {
            cursor: FRESH_CURSOR,
            ..service
        };
        match self.services.push(fresh) {
            Ok(()) => Ok(()),
            Err(_) => Err(ServiceRefused::NoMemory),
        }
    }

    /// Gives the service of that key its scheduler, persistence and mask, and a cursor that begins
    /// anew. It is refused with NoService where no service of that key is there.
    pub fn edit(&mut self, service: Service) -> Result<(), ServiceRefused>
        ensures answer { result ≡ edit_answer (is_known service.key self.old) }
        ensures services { self.new ≡ update_first (has_service_key service.key) (λ _. with_fresh_cursor service) self.old }
    {
        if !keys::is_there(&self.services, &service.key) {
            return Err(ServiceRefused::NoService);
        }
        let fresh = Service {
            cursor: FRESH_CURSOR,
            ..service
        };
        keys::replace(&mut self.services, fresh);
        Ok(())
    }

    /// Takes out the service of a key; the others keep their order. It is refused with NoService
    /// where no service of that key is there.
    pub fn remove(&mut self, key: &ServiceKey) -> Result<(), ServiceRefused>
        ensures answer { result ≡ edit_answer (is_known key.now self.old) }
        ensures services { self.new ≡ without (has_service_key key.now) self.old }
    {
        if !keys::is_there(&self.services, key) {
            return Err(ServiceRefused::NoService);
        }
        keys::take_out(&mut self.services, key);
        Ok(())
    }

    /// The service of a packet of this protocol, destination and mark: of its mark where that isn't
    /// 0, else of its address and port, else the one of port 0.
    pub fn find(&self, proto: Proto, addr: Addr, port: u16, mark: u32) -> Option<&Service>
        ensures { option_copied result ≡ find_service proto addr port mark self.now }
    {
        if let Some(service) = self.marked(mark) {
            return Some(service);
        }
        if let Some(service) = self.get(&ServiceKey::Net { proto, addr, port }) {
            return Some(service);
        }
        self.get(&ServiceKey::Net {
            proto,
            addr,
            port: 0,
        })
    }

    /// The service of a mark; 0 is no mark.
    fn marked(&self, mark: u32) -> Option<&Service>
        ensures { option_copied result ≡ marked_service mark self.now }
    {
        if mark == 0 {
            return None;
        }
        self.get(&ServiceKey::Mark(mark))
    }

    /// The service of a key.
    pub fn get(&self, key: &ServiceKey) -> Option<&Service>
        ensures { option_copied result ≡ service_at key.now self.now }
    {
        keys::find(&self.services, key)
    }

    /// Gives the service of a key its cursor. A key that isn't there changes nothing.
    pub fn set_cursor(&mut self, key: &ServiceKey, cursor: Cursor)
        ensures services { self.new ≡ update_first (has_service_key key.now) (λ (service : Service). record service { cursor = cursor }) self.old }
    {
        keys::turn(&mut self.services, key, cursor);
    }

    /// The services in order of addition, each key once.
    pub fn list(&self) -> &[Service]
        ensures services { result.now ≡ self.now }
        ensures apart { IsDistinct service_key_eq (service_keys self.now) }
    {
        &self.services
    }
}
