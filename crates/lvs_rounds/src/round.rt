//! One round, from a core and a plan to the book and the core that is left.
ghost use Rattle.std.specs.Prelude.{◌≡◌, ◌+◌, ◌<◌, ◌≤◌, ◌^◌, [], length, IfOk};
ghost use Rattle.lvs_model.specs.Books.{IsSound, IsWhole};
ghost use Rattle.lvs_shared.specs.Openings.{count_items, AreTimeless};

use crate::actors::{are_at_end, work_at_once};
use lvs_core::Core;
use lvs_outside::Gate;
use lvs_shared::{Director, Opening, RoundName};
use lvs_types::{NoMemory, RoundBook, RoundPlan};
use std::alloc::Global;
use std::marker::Brand;
use std::sync::Wait;
use std::thread::Threads;

/// Plays the round of an opening, whose book `N` names.
fn play_named<N: RoundName + Send + Sync, R: Threads + Wait + Sync, G: Gate + Sync>(
    rt: &R,
    alloc: Global,
    opening: Opening,
    gate: &G,
) -> Result<(Core, RoundBook), NoMemory>
    requires book { opening.book ≡ N.book.id }
    requires origin { opening.origin ≡ N.book.origin }
    ensures number { IfOk result (λ r. r.1.number ≡ opening.number) }
    ensures sound { IfOk result (λ r. IsSound opening.origin.core.state opening.origin.plan r.1 r.0.state) }
    ensures whole { IfOk result (λ r. IsWhole opening.origin.plan r.1) }
    ensures steps { IfOk result (λ r. r.0.steps ≡ opening.origin.core.steps + length r.1.acts) }
    ensures shown { IfOk result (λ r. r.1.shown ≡ []) }
{
    let Ok((director, seats)) = Director::<N>::begin(alloc, opening) else {
        return Err(NoMemory);
    };
    let seats = work_at_once::<R, G, Director<N>>(rt, alloc, &director, seats, gate)?;
    if !are_at_end(&seats) {
        return Err(NoMemory);
    }
    match director.close(alloc, seats) {
        Ok(played) => Ok(played),
        Err(_) => Err(NoMemory),
    }
}

/// Plays a round: each actor of the plan takes its items in order, all actors at once. The book has
/// every item of the plan once, in its actor's order, each with the reply of the definition at its
/// place; the core is the state that the book leaves. The book has no listings yet. For want of memory
/// the core is gone.
///
/// The plan is for the core's buckets and its present moment, has 4 to 65,536 lists and no tick, and
/// its items and the core's steps together are fewer than 2^62.
pub fn play<R: Threads + Wait + Sync, G: Gate + Sync>(
    rt: &R,
    alloc: Global,
    core: Core,
    plan: RoundPlan,
    number: u64,
    gate: &G,
) -> Result<(Core, RoundBook), NoMemory>
    requires moment { core.state.now ≡ plan.moment }
    requires buckets { core.state.buckets ≡ plan.buckets }
    requires timeless { AreTimeless plan.lists }
    requires some { 4 ≤ length plan.lists }
    requires many { length plan.lists ≤ 65536 }
    requires young { core.steps + count_items plan.lists < 2 ^ 62 }
    ensures number { IfOk result (λ r. r.1.number ≡ number) }
    ensures sound { IfOk result (λ r. IsSound core.state plan r.1 r.0.state) }
    ensures whole { IfOk result (λ r. IsWhole plan r.1) }
    ensures steps { IfOk result (λ r. r.0.steps ≡ core.steps + length r.1.acts) }
    ensures shown { IfOk result (λ r. r.1.shown ≡ []) }
{
    match Opening::new(alloc, core, plan, number) {
        Ok(opening) => play_named::<Brand, R, G>(rt, alloc, opening, gate),
        Err(_) => Err(NoMemory),
    }
}
