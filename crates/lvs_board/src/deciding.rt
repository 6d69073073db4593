//! An item is decided on the desk.
ghost use Rattle.std.specs.Prelude.{◌≡◌, IfOk, OnErr};
ghost use Rattle.lvs_model.specs.Step.{step};
ghost use Rattle.lvs_rules.specs.Finds.{entry_in};
ghost use Rattle.lvs_board.specs.Desks.{state_of};
ghost use Rattle.lvs_board.specs.Homes.{id_of, sweep_of};
ghost use Rattle.lvs_board.specs.AtItems.{for_item, sweep_at, IsAtItem, IsBegun};

use crate::desk::{Desk, Sweep};
use crate::item::{AtItem, Home};
use lvs_rules::{Whole, take_item};
use lvs_types::{Change, Found, Item, NoMemory, Reply};
use std::alloc::Global;

/// The id of the entry that was found.
fn id_found(found: &Found) -> Option<u64>
    ensures { result ≡ id_of (entry_in found.now) }
{
    match found {
        Found::One(e) => Some(e.id),
        Found::Nothing => None,
        Found::Due(_) => None,
    }
}

/// The sweep that the item is, at the moment.
fn sweep_of(item: &Item, moment: u64) -> Option<Sweep>
    ensures { result ≡ sweep_at moment (sweep_of item.now) }
{
    match item {
        Item::Sweep(bucket) => Some(Sweep {
            bucket: *bucket,
            moment,
        }),
        _ => None,
    }
}

impl Desk {
    /// An item begins, for which this was found: nothing of its bucket has changed.
    pub(crate) fn begin(&mut self, item: &Item, found: &Found)
        ensures { self.new ≡ for_item item.now found.now self.old }
    {
        self.home = id_found(found);
        self.sweep = sweep_of(item, self.moment);
        self.change = Change::Keep;
    }
}

/// The item that has begun is taken by its rule. For want of memory the state is as before.
pub(crate) fn decide_item<W: Whole, H: Home>(
    alloc: Global,
    desk: &mut Desk,
    item: &Item,
    found: &Found,
) -> Result<Reply, NoMemory>
    requires begun { IsBegun W.whole item.now found.now H.home H.sweep desk.old }
    ensures ok { IfOk result (λ r. (r, state_of W.whole desk.new) ≡ step W.whole item.now) }
    ensures err { OnErr result (state_of W.whole desk.new ≡ W.whole) }
    ensures at { IsAtItem W.whole H.home H.sweep desk.new }
{
    take_item::<AtItem<W, H>, Desk>(alloc, desk, item, found)
}
