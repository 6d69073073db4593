//! The pick of sh and dh.
ghost use Rattle.std.specs.Prelude.{◌≡◌, ◌<◌, length, None, IfSome, slice_index_or};
ghost use Rattle.lvs_model.specs.AddressHash.{slot_of, sh_slot, dh_slot, eligible_in, pick_sh, pick_dh};
ghost use Rattle.lvs_sched_hash.specs.Tables.{HoldsSlots};

use crate::slot::slot;
use crate::table::SlotTable;
use lvs_types::{Addr, Candidate};

/// The place of the server of the address's slot, where it is eligible: the source of the packet
/// with a table of sh, its destination with one of dh. The table is of these servers, which may have
/// changed since in everything but order and, with sh, weight.
pub fn pick_slot(table: &SlotTable, servers: &[Candidate], addr: Addr) -> Option<usize>
    ensures slot { result ≡ eligible_in servers.now (slice_index_or table.now (slot_of addr) None) }
    ensures within { IfSome result (λ place. place < length servers.now) }
    ensures sh { HoldsSlots (sh_slot servers.now) table.now → result ≡ pick_sh servers.now addr }
    ensures dh { HoldsSlots (dh_slot servers.now) table.now → result ≡ pick_dh servers.now addr }
{
    let place = table.slots[slot(addr)]?;
    let server = servers.get(place)?;
    if server.eligible { Some(place) } else { None }
}
