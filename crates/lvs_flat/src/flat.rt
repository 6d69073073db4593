//! The director over flat lists.
ghost use Rattle.std.specs.Prelude.{◌≡◌, ◌<◌, ◌≤◌, ◌+◌, ◌^◌, IfOk, OnErr, OnOk};
ghost use Rattle.lvs_model.specs.Messages.{HasOldFlags};
ghost use Rattle.std.specs.List.{AllByRecursion};
ghost use Rattle.lvs_flat.specs.Lists.{state_of};
ghost use Rattle.lvs_rules.specs.Bounds.{HasHeadroom, IsNextUnnamed};
ghost use Rattle.lvs_rules.specs.TooLong.{HaveDistinctIds};
ghost use Rattle.lvs_model.specs.Snapshots.{snapshot_of};
ghost use Rattle.lvs_model.specs.State.{initial};
ghost use Rattle.lvs_model.specs.Step.{step, IsInRange};
ghost use Rattle.lvs_model.specs.Counted.{IsCounted};
ghost use Rattle.lvs_model.specs.WellFormed.{IsWellFormed};

use crate::lists::Lists;
use crate::looking::look_up;
use crate::snapshot::show;
use lvs_rules::take_item;
use lvs_types::{Addr, Item, NoMemory, Reply, Snapshot};
use std::alloc::Global;
use std::marker::{Brand, Model};

/// The director over flat lists, which a contract sees as its state and the number of steps that it
/// has taken.
#[derive(Drop)]
pub struct Flat {
    lists: Lists,
    steps: u64,
}

impl Model for Flat {
    ghost use Rattle.lvs_flat.specs.Seen.{FlatSeen};

    ghost Value = { FlatSeen };

    ghost use Rattle.lvs_flat.specs.Lists.{state_of};
    ghost use Rattle.lvs_model.specs.Counted.{IsCounted};
    ghost use Rattle.lvs_model.specs.WellFormed.{IsWellFormed};

    ghost view = { λ f. record { state = state_of f.lists; steps = f.steps } };

    ghost invariant = { λ f. IsCounted f.steps (state_of f.lists) × IsWellFormed (state_of f.lists) };
}

/// The item is looked up, and the rules take it from there.
#[tactic(auto, using(crate::proofs::Given::all_given))]
fn take(alloc: Global, lists: &mut Lists, item: &Item) -> Result<Reply, NoMemory>
    requires room { HasHeadroom (state_of lists.old) }
    requires buckets { 0 < lists.old.buckets }
    requires apart { HaveDistinctIds (state_of lists.old) }
    requires unnamed { IsNextUnnamed (state_of lists.old) }
    requires pending { AllByRecursion HasOldFlags lists.old.pending.items }
    ensures ok { IfOk result (λ r. (r, state_of lists.new) ≡ step (state_of lists.old) item.now) }
    ensures err { OnErr result (state_of lists.new ≡ state_of lists.old) }
{
    let found = look_up(alloc, lists, item)?;
    take_item::<Brand, Lists>(alloc, lists, item, &found)
}

impl Flat {
    /// A director with nothing in it: its tunnels begin at the address, and its entries stand in so
    /// many buckets, 1 to 256.
    pub fn new(alloc: Global, local: Addr, buckets: u32) -> Result<Flat, NoMemory>
        requires some { 0 < buckets }
        requires few { buckets ≤ 256 }
        ensures state { IfOk result (λ f. f.state ≡ initial local buckets) }
        ensures steps { IfOk result (λ f. f.steps ≡ 0) }
    {
        Ok(Flat {
            lists: Lists::empty(alloc, local, buckets),
            steps: 0,
        })
    }

    /// How many steps it has taken.
    pub fn steps(&self) -> u64
        ensures { result ≡ self.now.steps }
    {
        self.steps
    }

    /// All that it keeps, in the order in which listings show it. Its state is well formed.
    pub fn snapshot(&self, alloc: Global) -> Result<Snapshot, NoMemory>
        ensures shown { IfOk result (λ s. s ≡ snapshot_of self.now.state) }
        ensures well_formed { IsWellFormed self.now.state }
    {
        show(alloc, &self.lists)
    }

    /// Takes an item: the definition's reply, and the definition's next state. For want of memory
    /// everything is as before.
    pub fn step(&mut self, alloc: Global, item: &Item) -> Result<Reply, NoMemory>
        requires in_range { IsInRange item.now }
        requires young { self.old.steps < 2 ^ 62 }
        ensures ok { IfOk result (λ r. (r, self.new.state) ≡ step self.old.state item.now) }
        ensures steps { OnOk result (self.new.steps ≡ self.old.steps + 1) }
        ensures err { OnErr result (self.new ≡ self.old) }
    {
        let reply = take(alloc, &mut self.lists, item)?;
        self.steps += 1;
        Ok(reply)
    }
}
