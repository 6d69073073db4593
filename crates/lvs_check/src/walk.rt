//! What the check of a report knows so far.
ghost use Rattle.std.specs.Prelude.{◌≡◌, ◌≤◌, ◌<◌, IfOk};
ghost use Rattle.lvs_model.specs.ScriptLimits.{IsWithinLimits};
ghost use Rattle.lvs_model.specs.Checking.{nothing_judged};
ghost use Rattle.lvs_check.specs.Kinds.{sizes_in};
ghost use Rattle.lvs_check.specs.Walks.{progress_of, IsFit};

use crate::director::Director;
use crate::due::Due;
use crate::line::RoundSizes;
use crate::queue::Queue;
use lvs_types::{NoMemory, Round, Script, Shown};
use std::alloc::Global;
use std::collections::VecDeque;

/// What the check knows so far.
#[derive(Drop)]
pub(crate) struct Walk<'a> {
    /// The number of the next round.
    pub number: u64,
    /// The rounds of the script that have no head yet.
    pub rounds: &'a [Round],
    /// The director after all acts so far.
    pub director: Director,
    /// The next place of the round.
    pub place: u64,
    /// What is left of each actor's list in the round, the clock's first.
    pub queues: Vec<Queue>,
    /// The listings that the round is still to show.
    pub shown: VecDeque<Shown>,
    /// The lines that the open listing is still to have.
    pub due: Due,
}

/// No round has begun.
pub(crate) fn begin(alloc: Global, script: &Script, sizes: RoundSizes) -> Result<Walk<'_>, NoMemory>
    requires within { IsWithinLimits script.now.rounds }
    requires some { 0 < sizes.buckets }
    requires few { sizes.buckets ≤ 256 }
    ensures progress { IfOk result (λ walk. progress_of walk ≡ nothing_judged script.now (sizes_in sizes)) }
    ensures fit { IfOk result (λ walk. IsFit walk) }
{
    Ok(Walk {
        number: 0,
        rounds: script.rounds.as_slice(),
        director: Director::new(alloc, script.local, sizes.buckets)?,
        place: 0,
        queues: Vec::new(alloc),
        shown: VecDeque::new(alloc),
        due: Due::none(alloc),
    })
}
