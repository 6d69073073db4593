//! The items of a script: in each round its moment, and then those of all actors, in an order by chance
//! that keeps each actor's.
ghost use Rattle.std.specs.Prelude.{◌≤◌};
ghost use Rattle.lvs_compare.specs.Shares.{AreGood};

use crate::chance::Chance;
use lvs_script::plan;
use lvs_types::{Item, Listed, NoMemory, Round};
use std::alloc::Global;
use std::collections::VecDeque;

/// How many workers and buckets share the items of a round.
#[derive(Clone, Copy, Debug)]
pub(crate) struct Shares {
    pub(crate) workers: u32,
    pub(crate) buckets: u32,
}

/// Shares by chance.
pub(crate) fn draw_shares(chance: &mut Chance) -> Shares
    ensures { AreGood result }
{
    Shares {
        workers: 1 + chance.below(4),
        buckets: match chance.below(3) {
            0 => 1,
            1 => 4,
            _ => 16,
        },
    }
}

/// The lists of a round's actors.
fn queues_of(alloc: Global, lists: Vec<Listed<Item>>) -> Result<Vec<VecDeque<Item>>, NoMemory> {
    let mut queues = Vec::with_capacity(alloc, lists.len())?;
    for items in lists {
        queues.push(VecDeque::from(items.into_vec()))?;
    }
    Ok(queues)
}

/// How many items they have.
fn count_items(queues: &[VecDeque<Item>]) -> usize {
    let mut count = 0usize;
    for queue in queues {
        count = count.saturating_add(queue.len());
    }
    count
}

/// The first item of the first list that has one.
fn first_of(queues: &mut [VecDeque<Item>]) -> Option<Item> {
    for queue in queues.iter_mut() {
        if let Some(item) = queue.pop_front() {
            return Some(item);
        }
    }
    None
}

/// The next item of an actor by chance, or of one behind it; where those have none, of the first that
/// has one.
fn next_of(queues: &mut [VecDeque<Item>], chance: &mut Chance) -> Option<Item> {
    if queues.is_empty() {
        return None;
    }
    let place = chance.place(queues.len());
    match first_of(&mut queues[place..]) {
        Some(item) => Some(item),
        None => first_of(queues),
    }
}

/// Appends the items of a round.
fn append_round(
    alloc: Global,
    items: &mut Vec<Item>,
    chance: &mut Chance,
    round: &Round,
    shares: Shares,
) -> Result<(), NoMemory>
    requires { AreGood shares }
{
    let plan = plan(alloc, round, shares.workers, shares.buckets)?;
    let mut queues = queues_of(alloc, plan.lists.into_vec())?;
    items.push(Item::Tick(round.moment))?;
    for _ in 0..count_items(&queues) {
        if let Some(item) = next_of(&mut queues, chance) {
            items.push(item)?;
        }
    }
    Ok(())
}

/// The items of all rounds.
pub(crate) fn items_of(
    alloc: Global,
    chance: &mut Chance,
    rounds: &[Round],
    shares: Shares,
) -> Result<Vec<Item>, NoMemory>
    requires { AreGood shares }
{
    let mut items = Vec::new(alloc);
    for round in rounds {
        append_round(alloc, &mut items, chance, round, shares)?;
    }
    Ok(items)
}
