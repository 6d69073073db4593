//! Look-ups of services and servers on the desk.
ghost use Rattle.std.specs.Prelude.{◌≡◌, ◌&&◌, Some, IfSome, nat_eq};
ghost use Rattle.std.specs.List.{find, list_any, IsDistinct};
ghost use Rattle.lvs_model.specs.Binding.{serves_at};
ghost use Rattle.lvs_model.specs.Lookups.{dest_at, has_service_key, is_server_at, is_server_of};
ghost use Rattle.lvs_model.specs.WellFormed.{dest_ids};
ghost use Rattle.lvs_dests.specs.Rows.{dests_of};

use lvs_dests::Dests;
use lvs_services::Services;
use lvs_types::{Addr, Dest, DestId, ServiceKey};

/// Whether a service of the key is there.
pub(crate) fn is_known(services: &Services, key: ServiceKey) -> bool
    ensures { result ≡ list_any (has_service_key key) services.now }
{
    services.get(&key).is_some()
}

/// The server of an id, live or in the trash.
pub(crate) fn server_of(dests: &Dests, id: DestId) -> Option<Dest>
    ensures server { result ≡ dest_at id (dests_of dests.now.rows) }
    ensures serves { IfSome result (λ d. dest_at d.id (dests_of dests.now.rows) ≡ Some d) }
{
    dests.get(id).copied()
}

/// The first live server of the service that takes packets to the address and port.
pub(crate) fn serving(
    dests: &Dests,
    key: ServiceKey,
    daddr: Addr,
    dport: u16,
    vport: u16,
) -> Option<Dest>
    requires apart { IsDistinct nat_eq (dest_ids (dests_of dests.now.rows)) }
    ensures server { result ≡ find (λ d. is_server_of key d && serves_at daddr dport vport d) (dests_of dests.now.rows) }
    ensures serves { IfSome result (λ d. dest_at d.id (dests_of dests.now.rows) ≡ Some d) }
{
    dests.find(&key, daddr, dport, vport).copied()
}

/// The live server of the service at exactly this address and port.
pub(crate) fn standing(dests: &Dests, key: ServiceKey, addr: Addr, port: u16) -> Option<Dest>
    requires apart { IsDistinct nat_eq (dest_ids (dests_of dests.now.rows)) }
    ensures server { result ≡ find (is_server_at key addr port) (dests_of dests.now.rows) }
    ensures serves { IfSome result (λ d. dest_at d.id (dests_of dests.now.rows) ≡ Some d) }
{
    serving(dests, key, addr, port, 0)
}
