//! The end of a round's acts, and of a round.
ghost use Rattle.std.specs.Prelude.{◌≡◌, ◌==◌, length, OnOk};
ghost use Rattle.std.specs.List.{list_all};
ghost use Rattle.lvs_model.specs.Checking.{is_used_up, acts_ended, round_ended};
ghost use Rattle.lvs_check.specs.Judging.{text_at, Judges};
ghost use Rattle.lvs_check.specs.Walks.{progress_of, IsFit};

use crate::clock::clock_left;
use crate::queue::Queue;
use crate::refusal::{LineText, Stop, unreadable_if};
use crate::walk::Walk;
use std::alloc::Global;

/// Whether no actor has an item left.
fn are_used_up(queues: &[Queue]) -> bool
    ensures { result ≡ list_all is_used_up queues.now }
{
    queues.iter().all(|queue| queue.len() == 0)
}

impl Walk<'_> {
    /// The clock's items that are left fill the places behind the last act, and no other item is
    /// left.
    pub(crate) fn end_acts(&mut self, alloc: Global, at: LineText<'_>) -> Result<(), Stop>
        requires fit { IsFit self.old }
        ensures judged { Judges result (progress_of self.new) (acts_ended (text_at at.entry) (progress_of self.old)) }
        ensures fit { OnOk result (IsFit self.new) }
    {
        let left = clock_left(&self.queues);
        self.fill(alloc, at, left)?;
        unreadable_if(!are_used_up(&self.queues), at)
    }

    /// A round's acts end, and no listing is missing.
    pub(crate) fn end_round(&mut self, alloc: Global, at: LineText<'_>) -> Result<(), Stop>
        requires fit { IsFit self.old }
        ensures judged { Judges result (progress_of self.new) (round_ended (text_at at.entry) (progress_of self.old)) }
        ensures fit { OnOk result (IsFit self.new) }
    {
        self.end_acts(alloc, at)?;
        unreadable_if(!self.shown.is_empty(), at)
    }
}
