//! A relay is made, with its two ends.
ghost use Rattle.std.specs.Prelude.{◌≡◌, ◌≤◌, [], IfOk};

use crate::ends::{Receiver, Sender};
use crate::line::Relay;
use crate::rule::{Part, Queue};
use lvs_types::NoMemory;
use std::alloc::Global;

/// A relay with room for so many messages, 1 to 1,024, and its two ends.
pub fn relay(alloc: Global, capacity: usize) -> Result<(Relay, Sender, Receiver), NoMemory>
    requires some { 1 ≤ capacity }
    requires few { capacity ≤ 1024 }
    ensures capacity { IfOk result (λ made. made.0.capacity ≡ capacity) }
    ensures sender { IfOk result (λ made. made.1 ≡ record { relay = made.0.id; posted = [] }) }
    ensures receiver { IfOk result (λ made. made.2 ≡ record { relay = made.0.id; taken = [] }) }
{
    let (queue, mut place) = Queue::ruled(alloc, capacity)?;
    let other = queue.another::<Part>(&mut place);
    Ok((Relay { queue }, Sender { place }, Receiver { place: other }))
}
