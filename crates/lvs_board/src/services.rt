//! Services on the desk.
ghost use Rattle.std.specs.Prelude.{◌≡◌, ◌≤◌, ◌-◌, ◌++◌, ◌∷◌, [], true, false, length, OnOk, OnErr};
ghost use Rattle.std.specs.List.{list_any};
ghost use Rattle.lvs_model.specs.Edits.{with_fresh_cursor};
ghost use Rattle.lvs_model.specs.Lists.{update_first, without};
ghost use Rattle.lvs_model.specs.Lookups.{find_service, has_service_key, service_at};
ghost use Rattle.lvs_model.specs.Scheduling.{with_cursor};
ghost use Rattle.lvs_board.specs.Desks.{state_of, IsSound};

use crate::desk::Desk;
use lvs_rules::Whole;
use lvs_services::Services;
use lvs_types::{Addr, Cursor, NoMemory, Proto, Service, ServiceKey};

/// The first service leaves, if there is one.
fn remove_first(services: &mut Services)
    ensures { length services.new ≤ length services.old - 1 }
{
    if let Some(first) = services.list().first().copied() {
        let _ = services.remove(&first.key);
    }
}

/// All services leave.
fn clear(services: &mut Services)
    ensures { services.new ≡ [] }
{
    for _ in 0..services.list().len() {
        remove_first(services);
    }
}

impl Desk {
    /// The service of a key.
    pub(crate) fn service<W: Whole>(&self, key: ServiceKey) -> Option<Service>
        ensures { result ≡ service_at key (state_of W.whole self.now).services }
    {
        self.services.get(&key).copied()
    }

    /// Whether a service of the key is there.
    pub(crate) fn is_service<W: Whole>(&self, key: ServiceKey) -> bool
        ensures { result ≡ list_any (has_service_key key) (state_of W.whole self.now).services }
    {
        self.service::<W>(key).is_some()
    }

    /// The service of a packet of this protocol, destination and mark.
    pub(crate) fn packet_service<W: Whole>(
        &self,
        proto: Proto,
        addr: Addr,
        port: u16,
        mark: u32,
    ) -> Option<Service>
        ensures { result ≡ find_service proto addr port mark (state_of W.whole self.now).services }
    {
        self.services.find(proto, addr, port, mark).copied()
    }

    /// A new service comes last, with a cursor that begins anew.
    pub(crate) fn add_service<W: Whole>(&mut self, service: &Service) -> Result<(), NoMemory>
        requires sound { IsSound W.whole self.old }
        requires fresh { list_any (has_service_key service.now.key) (state_of W.whole self.old).services ≡ false }
        ensures ok { OnOk result (state_of W.whole self.new ≡ record (state_of W.whole self.old) { services = (state_of W.whole self.old).services ++ with_fresh_cursor service.now ∷ [] }) }
        ensures err { OnErr result (self.new ≡ self.old) }
        ensures sound { IsSound W.whole self.new }
        ensures rest { self.new ≡ record self.old { services = self.new.services } }
    {
        match self.services.add(*service) {
            Ok(()) => Ok(()),
            Err(_) => Err(NoMemory),
        }
    }

    /// The service of the key becomes this one, with a cursor that begins anew.
    pub(crate) fn edit_service<W: Whole>(&mut self, service: &Service)
        requires sound { IsSound W.whole self.old }
        requires there { list_any (has_service_key service.now.key) (state_of W.whole self.old).services ≡ true }
        ensures state { state_of W.whole self.new ≡ record (state_of W.whole self.old) { services = update_first (has_service_key service.now.key) (λ _. with_fresh_cursor service.now) (state_of W.whole self.old).services } }
        ensures sound { IsSound W.whole self.new }
        ensures rest { self.new ≡ record self.old { services = self.new.services } }
    {
        let _ = self.services.edit(*service);
    }

    /// The service of the key leaves. Its servers stay.
    pub(crate) fn remove_service<W: Whole>(&mut self, key: ServiceKey)
        requires sound { IsSound W.whole self.old }
        ensures state { state_of W.whole self.new ≡ record (state_of W.whole self.old) { services = without (has_service_key key) (state_of W.whole self.old).services } }
        ensures sound { IsSound W.whole self.new }
        ensures rest { self.new ≡ record self.old { services = self.new.services } }
    {
        let _ = self.services.remove(&key);
    }

    /// All services leave. Their servers stay.
    pub(crate) fn clear_services<W: Whole>(&mut self)
        requires sound { IsSound W.whole self.old }
        ensures state { state_of W.whole self.new ≡ record (state_of W.whole self.old) { services = [] } }
        ensures sound { IsSound W.whole self.new }
        ensures rest { self.new ≡ record self.old { services = self.new.services } }
    {
        clear(&mut self.services);
    }

    /// The service of the key gets its cursor.
    pub(crate) fn set_cursor<W: Whole>(&mut self, key: ServiceKey, cursor: Cursor)
        requires sound { IsSound W.whole self.old }
        ensures state { state_of W.whole self.new ≡ with_cursor key cursor (state_of W.whole self.old) }
        ensures sound { IsSound W.whole self.new }
        ensures rest { self.new ≡ record self.old { services = self.new.services } }
    {
        self.services.set_cursor(&key, cursor);
    }
}
