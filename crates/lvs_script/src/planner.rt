//! The plan of a round: the items of each actor.
ghost use Rattle.std.specs.Prelude.{◌≡◌, ◌++◌, ◌∷◌, [], ◌<◌, ◌≤◌, ℕ, length, IfOk, OnOk};
ghost use Rattle.std.specs.List.{filter_map};
ghost use Rattle.lvs_model.specs.Plans.{clock_items, shown_by, plan as plan_of};
ghost use Rattle.lvs_script.specs.Planning.{lists_in, empty_lists, with_item_at, with_item, with_items};

use crate::actors::{Actor, actor_of};
use crate::items::items_of_lines;
use lvs_types::{Item, Listed, NoMemory, Round, RoundPlan, ScriptLine, Shown};
use std::alloc::Global;
use std::marker::Model;

/// The lists of control, of sync and of each worker, while items are placed.
#[derive(Drop)]
struct Planner {
    control: Vec<Item>,
    sync: Vec<Item>,
    workers: Vec<Vec<Item>>,
}

impl Model for Planner {
    ghost use Rattle.lvs_script.specs.Planning.{HasWorkers, Lists, lists_in};

    ghost Value = { Lists };

    ghost view = { λ p. record { control = p.control.items; sync = p.sync.items; workers = lists_in p.workers } };

    ghost invariant = { λ p. HasWorkers (lists_in p.workers) };
}

/// So many empty lists.
fn empty_workers(alloc: Global, workers: u32) -> Result<Vec<Vec<Item>>, NoMemory>
    ensures { IfOk result (λ lists. lists_in lists ≡ (empty_lists workers).workers) }
{
    let mut lists = Vec::with_capacity(alloc, workers as usize)?;
    for _ in 0..workers {
        lists.push(Vec::new(alloc))?;
    }
    Ok(lists)
}

/// An item more in the list at a place.
fn push_at(lists: &mut Vec<Vec<Item>>, place: usize, item: Item) -> Result<(), NoMemory>
    requires { place < length lists.old.items }
    ensures ok { OnOk result (lists_in lists.new ≡ with_item_at place item (lists_in lists.old)) }
    ensures count { length lists.new.items ≡ length lists.old.items }
{
    Ok(lists[place].push(item)?)
}

impl Planner {
    fn new(alloc: Global, workers: u32) -> Result<Planner, NoMemory>
        requires some { 1 ≤ workers }
        requires few { workers ≤ 16 }
        ensures { IfOk result (λ planner. planner ≡ empty_lists workers) }
    {
        Ok(Planner {
            control: Vec::new(alloc),
            sync: Vec::new(alloc),
            workers: empty_workers(alloc, workers)?,
        })
    }

    /// How many workers there are.
    fn count_workers(&self) -> u32
        ensures value { result ≡ length self.now.workers }
        ensures some { 0 < result }
    {
        self.workers.len() as u32
    }

    /// An item more in the list of this actor.
    fn put(&mut self, actor: Actor, item: Item) -> Result<(), NoMemory>
        requires { (worker : ℕ) → actor ≡ Actor.Worker worker → worker < length self.old.workers }
        ensures { OnOk result (self.new ≡ with_item actor item self.old) }
    {
        match actor {
            Actor::Clock => Ok(()),
            Actor::Control => Ok(self.control.push(item)?),
            Actor::Sync => Ok(self.sync.push(item)?),
            Actor::Worker(worker) => push_at(&mut self.workers, worker as usize, item),
        }
    }

    /// The next item, in the list of its actor.
    fn place(&mut self, item: Item) -> Result<(), NoMemory>
        ensures { OnOk result (self.new ≡ with_items self.old (item ∷ [])) }
    {
        let actor = actor_of(&item, self.count_workers());
        self.put(actor, item)
    }

    /// The next items.
    fn place_all(&mut self, items: Vec<Item>) -> Result<(), NoMemory>
        ensures { OnOk result (self.new ≡ with_items self.old items.items) }
    {
        for item in items {
            self.place(item)?;
        }
        Ok(())
    }

    /// The clock's list and these.
    fn finish(self, alloc: Global, clock: Vec<Item>) -> Result<Listed<Listed<Item>>, NoMemory>
        ensures { IfOk result (λ lists. lists ≡ clock.items ∷ self.control ∷ self.sync ∷ self.workers) }
    {
        let mut lists = Vec::with_capacity(alloc, self.workers.len().saturating_add(3))?;
        lists.push(Listed::from_vec(clock))?;
        lists.push(Listed::from_vec(self.control))?;
        lists.push(Listed::from_vec(self.sync))?;
        for worker in self.workers {
            lists.push(Listed::from_vec(worker))?;
        }
        Ok(Listed::from_vec(lists))
    }
}

/// The sweeps of all buckets, the reaping and the sending.
fn clock_items(alloc: Global, buckets: u32) -> Result<Vec<Item>, NoMemory>
    requires { buckets ≤ 256 }
    ensures { IfOk result (λ items. items.items ≡ clock_items buckets) }
{
    let mut items = Vec::with_capacity(alloc, buckets as usize + 2)?;
    for bucket in 0..buckets {
        items.push(Item::Sweep(bucket))?;
    }
    items.push(Item::Reap)?;
    items.push(Item::SendSync)?;
    Ok(items)
}

/// The listings of lines, in order.
fn listings(alloc: Global, lines: &[ScriptLine]) -> Result<Listed<Shown>, NoMemory>
    ensures { IfOk result (λ shown. shown ≡ filter_map shown_by lines.now) }
{
    let mut listings = Vec::new(alloc);
    for line in lines {
        if let ScriptLine::Show(shown) = line {
            listings.push(shown.copy(alloc)?)?;
        }
    }
    Ok(Listed::from_vec(listings))
}

/// What each actor is to do in a round: the clock, control, sync, and 1 to 16 workers, a packet
/// going to the worker of its client's side (this project's profile). The clock sweeps 1 to 256
/// buckets.
pub fn plan(alloc: Global, round: &Round, workers: u32, buckets: u32) -> Result<RoundPlan, NoMemory>
    requires some_workers { 1 ≤ workers }
    requires few_workers { workers ≤ 16 }
    requires some_buckets { 1 ≤ buckets }
    requires few_buckets { buckets ≤ 256 }
    ensures { IfOk result (λ plan. plan ≡ plan_of round.now workers buckets) }
{
    let mut planner = Planner::new(alloc, workers)?;
    planner.place_all(items_of_lines(alloc, round.lines.as_slice())?)?;
    Ok(RoundPlan {
        moment: round.moment,
        buckets,
        lists: planner.finish(alloc, clock_items(alloc, buckets)?)?,
        shown: listings(alloc, round.lines.as_slice())?,
    })
}
