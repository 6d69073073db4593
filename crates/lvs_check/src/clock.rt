//! The clock's items at places without a line.
ghost use Rattle.std.specs.Prelude.{◌≡◌, ◌+◌, ◌≤◌, ◌<◌, length, OnOk};
ghost use Rattle.lvs_model.specs.Progress.{clock_of, filled};
ghost use Rattle.lvs_check.specs.Judging.{text_at, Judges};
ghost use Rattle.lvs_check.specs.Walks.{progress_of, IsFit};

use crate::queue::{Queue, take_next};
use crate::refusal::{LineText, Stop, illegal};
use crate::walk::Walk;
use crate::words::{act_words, is_printed};
use std::alloc::Global;

/// How many items of the clock are left.
pub(crate) fn clock_left(queues: &[Queue]) -> u64
    ensures { result ≡ length (clock_of queues.now).items }
{
    match queues {
        [] => 0,
        [clock, ..] => clock.len() as u64,
    }
}

/// The number of the clock's next item.
fn clock_number(queues: &[Queue]) -> u64
    ensures { result ≡ (clock_of queues.now).next }
{
    match queues {
        [] => 0,
        [clock, ..] => clock.next_number(),
    }
}

impl Walk<'_> {
    /// The clock's next item fills a place.
    fn fill_place(&mut self, alloc: Global, at: LineText<'_>) -> Result<(), Stop>
        requires fit { IsFit self.old }
        requires some { 0 < length (clock_of self.old.queues.items).items }
        ensures judged { Judges result (progress_of self.new) (filled (text_at at.entry) 1 (progress_of self.old)) }
        ensures fit { OnOk result (IsFit self.new) }
        ensures left { OnOk result (length (clock_of self.new.queues.items).items + 1 ≡ length (clock_of self.old.queues.items).items) }
    {
        let number = clock_number(&self.queues);
        let Some(item) = take_next(&mut self.queues, 0, number) else {
            return Ok(());
        };
        let reply = self.director.step(alloc, item)?;
        if is_printed(&reply) {
            let expected = act_words(alloc, self.place, 0, number, reply)?;
            return Err(illegal(alloc, at, &expected)?);
        }
        self.place += 1;
        Ok(())
    }

    /// The clock's next items fill so many places.
    pub(crate) fn fill(&mut self, alloc: Global, at: LineText<'_>, count: u64) -> Result<(), Stop>
        requires fit { IsFit self.old }
        requires few { count ≤ length (clock_of self.old.queues.items).items }
        ensures judged { Judges result (progress_of self.new) (filled (text_at at.entry) count (progress_of self.old)) }
        ensures fit { OnOk result (IsFit self.new) }
    {
        let mut left = count;
        while left > 0 {
            self.fill_place(alloc, at)?;
            left -= 1;
        }
        Ok(())
    }
}
