//! What is left of an actor's list in a round.
ghost use Rattle.std.specs.Prelude.{◌≡◌, ◌≤◌, ◌+◌, ◌^◌, length, map, set, slice_get, Some, None, IfNone, IfSome, IfOk};
ghost use Rattle.lvs_model.specs.Progress.{Queue as QueueSeen};
ghost use Rattle.lvs_check.specs.Queues.{IsNext, next_of, whole_queue};

use lvs_types::{Item, Listed, NoMemory};
use std::alloc::Global;
use std::collections::VecDeque;
use std::marker::Model;

/// What is left of an actor's list.
#[derive(Drop)]
pub(crate) struct Queue {
    /// The number of the first item that is left.
    next: u64,
    items: VecDeque<Item>,
}

impl Model for Queue {
    ghost use Rattle.lvs_model.specs.Progress.{Queue as QueueSeen};
    ghost use Rattle.std.specs.Prelude.{◌≤◌, ◌+◌, ◌^◌, length};

    ghost Value = { QueueSeen };

    ghost view = { λ q. record { next = q.next; items = q.items.items } };

    ghost invariant = { λ q. q.next + length q.items.items ≤ 2 ^ 63 };
}

impl Queue {
    /// A whole list.
    pub(crate) fn new(items: Listed<Item>) -> Queue
        ensures { result ≡ record { next = 0; items = items } }
    {
        Queue {
            next: 0,
            items: VecDeque::from(items.into_vec()),
        }
    }

    /// How many items are left.
    pub(crate) fn len(&self) -> usize
        ensures { result ≡ length self.now.items }
    {
        self.items.len()
    }

    /// The number of the next item.
    pub(crate) fn next_number(&self) -> u64
        ensures { result ≡ self.now.next }
    {
        self.next
    }

    /// Takes the next item, where it has this number.
    pub(crate) fn take(&mut self, number: u64) -> Option<Item>
        ensures { IsNext number (Some self.old) result self.new }
    {
        if number != self.next {
            return None;
        }
        let item = self.items.pop_front()?;
        self.next += 1;
        Some(item)
    }
}

/// Takes the next item of an actor, where it has this number.
pub(crate) fn take_next(queues: &mut Vec<Queue>, actor: u32, number: u64) -> Option<Item>
    ensures none { IfNone result (next_of number (slice_get queues.old.items actor) ≡ None) }
    ensures some { IfSome result (λ first. (left : QueueSeen) × IsNext number (slice_get queues.old.items actor) (Some first) left × (queues.new.items ≡ set queues.old.items actor left)) }
{
    let place = actor as usize;
    if place >= queues.len() {
        return None;
    }
    queues[place].take(number)
}

/// The lists of a round's actors, none of which has begun.
pub(crate) fn queues_of(alloc: Global, lists: Vec<Listed<Item>>) -> Result<Vec<Queue>, NoMemory>
    ensures { IfOk result (λ queues. queues.items ≡ map whole_queue lists.items) }
{
    let mut queues = Vec::with_capacity(alloc, lists.len())?;
    for items in lists {
        queues.push(Queue::new(items))?;
    }
    Ok(queues)
}
