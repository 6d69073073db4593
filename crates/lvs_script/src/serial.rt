//! The items of a round in the one order of `serial`.
ghost use Rattle.std.specs.Prelude.{◌≡◌, [], ◌∷◌, ◌++◌, ◌≤◌, IfOk, OnOk, OnErr};
ghost use Rattle.lvs_model.specs.Plans.{actor_of, placed_after, serial_items};

use crate::items::items_of_lines;
use lvs_types::{Item, NoMemory, Placed, Round};
use std::alloc::Global;
use std::marker::Model;

/// Items with their actors and their numbers in the actors' lists, in order.
#[derive(Drop)]
struct Placer {
    placed: Vec<Placed>,
    clock: u64,
    control: u64,
    sync: u64,
    worker: u64,
}

impl Model for Placer {
    ghost use Rattle.std.specs.Prelude.{List, map, length};
    ghost use Rattle.lvs_types.specs.declared.item.Item.{Item};
    ghost use Rattle.lvs_types.specs.declared.book.Placed.{Placed};
    ghost use Rattle.lvs_script.specs.Placing.{IsPlaced, items_placed};

    ghost Value = { List Item };

    ghost view = { λ p. items_placed p.placed.items };

    ghost invariant = { λ p. IsPlaced p.placed.items p.clock p.control p.sync p.worker };
}

/// Who an item is for, where there is one worker: 0 the clock, 1 control, 2 sync, 3 the worker.
fn actor_of(item: &Item) -> u32
    ensures value { result ≡ actor_of item.now }
    ensures small { result ≤ 3 }
{
    match item {
        Item::Incoming { .. } | Item::Outgoing { .. } => 3,
        Item::Edit(_) | Item::Set(_) => 1,
        Item::Learn { .. } | Item::BadSync(_) => 2,
        Item::Tick(_) | Item::Sweep(_) | Item::Reap | Item::SendSync => 0,
    }
}

/// Adds an item of that actor and number.
fn push(placed: &mut Vec<Placed>, actor: u32, number: u64, item: Item) -> Result<(), NoMemory>
    ensures ok { OnOk result (placed.new.items ≡ placed.old.items ++ record { actor = actor; number = number; item = item } ∷ []) }
    ensures err { OnErr result (placed.new.items ≡ placed.old.items) }
{
    placed.push(Placed {
        actor,
        number,
        item,
    })?;
    Ok(())
}

impl Placer {
    fn new(alloc: Global) -> Placer
        ensures { result ≡ [] }
    {
        Placer {
            placed: Vec::new(alloc),
            clock: 0,
            control: 0,
            sync: 0,
            worker: 0,
        }
    }

    /// The next item.
    fn place(&mut self, item: Item) -> Result<(), NoMemory>
        ensures { OnOk result (self.new ≡ self.old ++ item ∷ []) }
    {
        match actor_of(&item) {
            0 => {
                push(&mut self.placed, 0, self.clock, item)?;
                self.clock += 1;
            }
            1 => {
                push(&mut self.placed, 1, self.control, item)?;
                self.control += 1;
            }
            2 => {
                push(&mut self.placed, 2, self.sync, item)?;
                self.sync += 1;
            }
            _ => {
                push(&mut self.placed, 3, self.worker, item)?;
                self.worker += 1;
            }
        }
        Ok(())
    }

    /// The next items.
    fn place_all(&mut self, items: Vec<Item>) -> Result<(), NoMemory>
        ensures { OnOk result (self.new ≡ self.old ++ items.items) }
    {
        for item in items {
            self.place(item)?;
        }
        Ok(())
    }

    fn finish(self) -> Vec<Placed>
        ensures { result.items ≡ placed_after [] self }
    {
        self.placed
    }
}

/// The items of a round in the one order of `serial`: the sweep of its bucket, the reaping, the
/// lines in their order, and the sending. Each has its actor and its number in the actor's list.
pub fn serial_items(alloc: Global, round: &Round) -> Result<Vec<Placed>, NoMemory>
    ensures { IfOk result (λ placed. placed.items ≡ serial_items round.now) }
{
    let mut placer = Placer::new(alloc);
    placer.place(Item::Sweep(0))?;
    placer.place(Item::Reap)?;
    placer.place_all(items_of_lines(alloc, round.lines.as_slice())?)?;
    placer.place(Item::SendSync)?;
    Ok(placer.finish())
}
