//! The director that `serial` runs on: one place to change.
ghost use Rattle.std.specs.Prelude.{◌≡◌, ◌<◌, ◌+◌, ◌^◌, IfOk, OnOk};
ghost use Rattle.lvs_model.specs.State.{initial};
ghost use Rattle.lvs_model.specs.Step.{step, IsInRange};
ghost use Rattle.lvs_model.specs.Plans.{listings_of};
ghost use Rattle.lvs_model.specs.Listings.{shown_of};

use crate::listings::show_round;
use lvs_core::Core;
use lvs_types::{Addr, Item, Listed, NoMemory, Reply, Round, ShownText};
use std::alloc::Global;
use std::marker::Model;

/// The director of `serial`, with one bucket. A contract sees its state and how many steps it has
/// taken.
#[derive(Drop)]
pub(crate) struct Director {
    core: Core,
}

impl Model for Director {
    ghost use Rattle.lvs_run.specs.Seen.{DirectorSeen};

    ghost Value = { DirectorSeen };

    ghost view = { λ d. record { state = d.core.state; steps = d.core.steps } };
}

impl Director {
    /// A director with nothing in it.
    pub(crate) fn new(alloc: Global, local: Addr) -> Result<Director, NoMemory>
        ensures state { IfOk result (λ d. d.state ≡ initial local 1) }
        ensures steps { IfOk result (λ d. d.steps ≡ 0) }
    {
        Ok(Director {
            core: Core::new(alloc, local, 1)?,
        })
    }

    /// Takes an item, which comes back with its reply: no byte of it is copied. Scripts name no item
    /// that the director can't take, and no script has so many that it couldn't count them.
    pub(crate) fn step(&mut self, alloc: Global, item: Item) -> Result<(Item, Reply), NoMemory>
        requires in_range { IsInRange item }
        requires young { self.old.steps < 2 ^ 62 }
        ensures ok { IfOk result (λ r. (r.1, self.new.state) ≡ step self.old.state item) }
        ensures item { IfOk result (λ r. r.0 ≡ item) }
        ensures steps { OnOk result (self.new.steps ≡ self.old.steps + 1) }
    {
        match self.core.step_owned(alloc, item) {
            Ok(answered) => Ok(answered),
            Err((_, cause)) => Err(cause),
        }
    }

    /// The listings of a round, of the director as it is now.
    pub(crate) fn show(&self, alloc: Global, round: &Round) -> Result<Listed<ShownText>, NoMemory>
        ensures { IfOk result (λ shown. shown ≡ shown_of self.now.state (listings_of round.now)) }
    {
        show_round(alloc, &self.core, round)
    }
}
