//! One round, with a thread for each actor.
ghost use Rattle.std.specs.Prelude.{◌≡◌, ◌+◌, ◌<◌, ◌≤◌, ◌^◌, IfOk, OnOk};
ghost use Rattle.lvs_model.specs.Books.{at_moment};
ghost use Rattle.lvs_run.specs.Crews.{IsCrewOf};
ghost use Rattle.lvs_run.specs.Limits.{most_steps};
ghost use Rattle.lvs_run.specs.Ways.{threaded_way, IsPlayed};

use crate::listings::show_round;
use lvs_core::Core;
use lvs_outside::Gate;
use lvs_rounds::play;
use lvs_script::plan;
use lvs_types::{Item, NoMemory, Round, RoundBook};
use std::alloc::Global;
use std::sync::Wait;
use std::thread::Threads;

/// So many workers over so many buckets, and what they run on.
#[derive(Drop)]
pub(crate) struct Crew<'a, R, G> {
    /// 1 to 16.
    pub(crate) workers: u32,
    /// 1 to 256.
    pub(crate) buckets: u32,
    pub(crate) rt: &'a R,
    pub(crate) gate: &'a G,
}

/// The moment of the director becomes that of a round.
fn tick(alloc: Global, core: &mut Core, moment: u64) -> Result<(), NoMemory>
    requires in_range { moment ≤ 4294967295 }
    requires young { core.old.steps < 2 ^ 62 }
    ensures state { OnOk result (core.new.state ≡ at_moment core.old.state moment) }
    ensures steps { OnOk result (core.new.steps ≡ core.old.steps + 1) }
{
    match core.step_owned(alloc, Item::Tick(moment)) {
        Ok(_) => Ok(()),
        Err((_, cause)) => Err(cause),
    }
}

/// Plays a round: its moment, then its items, a thread for each actor, and then its listings.
pub(crate) fn play_round<R: Threads + Wait + Sync, G: Gate + Sync>(
    alloc: Global,
    crew: &Crew<'_, R, G>,
    mut core: Core,
    number: u64,
    round: &Round,
) -> Result<(Core, RoundBook), NoMemory>
    requires crew { IsCrewOf crew.now.workers crew.now.buckets core.state }
    requires moment { round.now.moment ≤ 4294967295 }
    requires young { core.steps + most_steps round.now ≤ 2 ^ 62 }
    ensures played { IfOk result (λ r. IsPlayed (threaded_way crew.now.workers crew.now.buckets) number round.now core.state r.1 r.0.state) }
    ensures few { IfOk result (λ r. r.0.steps ≤ core.steps + most_steps round.now) }
{
    tick(alloc, &mut core, round.moment)?;
    let plan = plan(alloc, round, crew.workers, crew.buckets)?;
    let (core, mut book) = play(crew.rt, alloc, core, plan, number, crew.gate)?;
    book.shown = show_round(alloc, &core, round)?;
    Ok((core, book))
}
