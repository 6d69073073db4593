//! The slots of the pool: each server with the number of its addition, under a key of the slab.
ghost use Rattle.std.specs.Prelude.{◌≡◌, Some};
ghost use Rattle.slab.specs.Slab.{get, ContainsKey, Updates};
ghost use Rattle.lvs_dests.specs.declared.slots.Slot.{Slot};

use lvs_types::DestRow;
use slab::Slab;

/// A server with the number of its addition or revival; later ones have higher numbers.
#[derive(Clone, Copy, Debug)]
pub(crate) struct Slot {
    pub(crate) row: DestRow,
    pub(crate) sequence: u64,
}

/// Puts a slot in the place of the one under a key.
pub(crate) fn put(slab: &mut Slab<Slot>, key: usize, slot: Slot)
    requires there { ContainsKey slab.old key }
    ensures updates { Updates slab.old slab.new key (Some slot) }
{
    if let Some(place) = slab.get_mut(key) {
        *place = slot;
    }
}
