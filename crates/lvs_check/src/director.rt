//! The director that is asked for each line: one place to change.
ghost use Rattle.std.specs.Prelude.{◌≡◌, ◌<◌, ◌≤◌, ◌+◌, ◌^◌, IfOk, OnOk};
ghost use Rattle.lvs_model.specs.Listings.{text_of};
ghost use Rattle.lvs_model.specs.Snapshots.{snapshot_of};
ghost use Rattle.lvs_model.specs.State.{initial};
ghost use Rattle.lvs_model.specs.Step.{step, IsInRange};

use crate::listing::listing_text;
use lvs_core::Core;
use lvs_types::{Addr, Bytes, Item, NoMemory, Reply, Shown, Snapshot};
use std::alloc::Global;
use std::marker::Model;

/// A director, which keeps what it showed until its next step: however many listings a round has,
/// its tables are put in order once. A contract sees its state and how many steps it has taken.
#[derive(Drop)]
pub(crate) struct Director {
    core: Core,
    shown: Option<Snapshot>,
}

impl Model for Director {
    ghost use Rattle.std.specs.Prelude.{◌≡◌, IfSome};
    ghost use Rattle.lvs_core.specs.Seen.{CoreSeen};
    ghost use Rattle.lvs_model.specs.Snapshots.{snapshot_of};

    ghost Value = { CoreSeen };

    ghost view = { λ d. d.core };

    ghost invariant = { λ d. IfSome d.shown (λ tables. tables ≡ snapshot_of d.core.state) };
}

impl Director {
    /// A director with nothing in it, of so many buckets.
    pub(crate) fn new(alloc: Global, local: Addr, buckets: u32) -> Result<Director, NoMemory>
        requires some { 0 < buckets }
        requires few { buckets ≤ 256 }
        ensures state { IfOk result (λ d. d.state ≡ initial local buckets) }
        ensures steps { IfOk result (λ d. d.steps ≡ 0) }
    {
        Ok(Director {
            core: Core::new(alloc, local, buckets)?,
            shown: None,
        })
    }

    /// Takes an item, of which no byte is copied.
    pub(crate) fn step(&mut self, alloc: Global, item: Item) -> Result<Reply, NoMemory>
        requires in_range { IsInRange item }
        requires young { self.old.steps < 2 ^ 62 }
        ensures ok { IfOk result (λ r. (r, self.new.state) ≡ step self.old.state item) }
        ensures steps { OnOk result (self.new.steps ≡ self.old.steps + 1) }
    {
        self.shown = None;
        match self.core.step_owned(alloc, item) {
            Ok((_, reply)) => Ok(reply),
            Err((_, cause)) => Err(cause),
        }
    }

    /// The lines of a listing of the director as it is. Nothing of its state changes.
    pub(crate) fn show(&mut self, alloc: Global, kind: &Shown) -> Result<Bytes, NoMemory>
        ensures text { IfOk result (λ text. text ≡ text_of (snapshot_of self.old.state) kind.now) }
        ensures kept { self.new ≡ self.old }
    {
        let tables = match self.shown.take() {
            Some(tables) => tables,
            None => self.core.snapshot(alloc)?,
        };
        let text = listing_text(alloc, &tables, kind);
        self.shown = Some(tables);
        text
    }
}
