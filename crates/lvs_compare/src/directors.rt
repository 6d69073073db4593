//! The plain director and the core side by side.
ghost use Rattle.std.specs.Prelude.{◌≡◌, ◌≤◌, ◌<◌, ◌^◌, true};
ghost use Rattle.lvs_model.specs.Step.{IsInRange};

use lvs_core::Core;
use lvs_flat::Flat;
use lvs_types::{Addr, Item, NoMemory, Reply, Snapshot};
use std::alloc::Global;

/// After so many steps a director takes no more items.
const MOST_STEPS: u64 = 1 << 62;

/// The greatest moment.
const LAST_MOMENT: u64 = 4_294_967_295;

/// The tables are compared after so many items, and at the end.
const ITEMS_BETWEEN: u64 = 8;

/// What the two directors gave: the plain one and the core.
#[derive(Debug, Drop)]
pub(crate) struct Both<T> {
    pub(crate) plain: T,
    pub(crate) core: T,
}

impl<T: PartialEq> Both<T> {
    /// Whether both gave the same.
    pub(crate) fn agree(&self) -> bool {
        self.plain == self.core
    }
}

/// Both directors, which take the same items.
#[derive(Drop)]
pub(crate) struct Directors {
    plain: Flat,
    core: Core,
}

/// Whether a director can take the item: a moment isn't past the greatest one.
fn is_in_range(item: &Item) -> bool
    ensures { result ≡ true → IsInRange item.now }
{
    match item {
        Item::Tick(moment) => *moment <= LAST_MOMENT,
        _ => true,
    }
}

impl Directors {
    /// Both with nothing in them.
    pub(crate) fn new(alloc: Global, local: Addr, buckets: u32) -> Result<Directors, NoMemory>
        requires some { 0 < buckets }
        requires few { buckets ≤ 256 }
    {
        Ok(Directors {
            plain: Flat::new(alloc, local, buckets)?,
            core: Core::new(alloc, local, buckets)?,
        })
    }

    /// Whether both can take the item. Those of scripts they can, until they have taken 2^62.
    fn can_take(&self, item: &Item) -> bool
        ensures in_range { result ≡ true → IsInRange item.now }
        ensures plain { result ≡ true → self.now.plain.steps < 2 ^ 62 }
        ensures core { result ≡ true → self.now.core.steps < 2 ^ 62 }
    {
        is_in_range(item) && self.plain.steps() < MOST_STEPS && self.core.steps() < MOST_STEPS
    }

    /// Both take an item; none where one can't.
    pub(crate) fn step(
        &mut self,
        alloc: Global,
        item: Item,
    ) -> Result<Option<(Item, Both<Reply>)>, NoMemory> {
        if !self.can_take(&item) {
            return Ok(None);
        }
        let plain = self.plain.step(alloc, &item)?;
        match self.core.step_owned(alloc, item) {
            Ok((item, core)) => Ok(Some((item, Both { plain, core }))),
            Err((_, cause)) => Err(cause),
        }
    }

    /// How many items both have taken.
    pub(crate) fn steps(&self) -> u64 {
        self.core.steps()
    }

    /// Whether it is time to compare the tables.
    pub(crate) fn are_due(&self) -> bool {
        self.steps() % ITEMS_BETWEEN == 0
    }

    /// What both show.
    pub(crate) fn show(&self, alloc: Global) -> Result<Both<Snapshot>, NoMemory> {
        Ok(Both {
            plain: self.plain.snapshot(alloc)?,
            core: self.core.snapshot(alloc)?,
        })
    }
}
