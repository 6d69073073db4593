//! The lines of acts.
ghost use Rattle.std.specs.Prelude.{◌≡◌, slice_get, OnOk};
ghost use Rattle.lvs_model.specs.Checking.{actor_taken, act_judged};
ghost use Rattle.lvs_check.specs.Judging.{text_at, Judges};
ghost use Rattle.lvs_check.specs.Walks.{progress_of, IsFit};

use crate::clock::clock_left;
use crate::queue::take_next;
use crate::refusal::{LineText, Stop, check_text, unreadable};
use crate::walk::Walk;
use crate::words::act_words;
use std::alloc::Global;

impl Walk<'_> {
    /// The item of that number, where it is the next one of its actor.
    fn take_item(
        &mut self,
        alloc: Global,
        at: LineText<'_>,
        actor: u32,
        number: u64,
    ) -> Result<(), Stop>
        requires fit { IsFit self.old }
        ensures judged { Judges result (progress_of self.new) (actor_taken (text_at at.entry) actor number (slice_get self.old.queues.items actor) (progress_of self.old)) }
        ensures fit { OnOk result (IsFit self.new) }
    {
        let Some(item) = take_next(&mut self.queues, actor, number) else {
            return Err(unreadable(at));
        };
        let reply = self.director.step(alloc, item)?;
        let expected = act_words(alloc, self.place, actor, number, reply)?;
        check_text(alloc, at, &expected)?;
        self.place += 1;
        Ok(())
    }

    /// An act's line: its place, the clock's items at the places before it, its item, and its text.
    pub(crate) fn take_act(
        &mut self,
        alloc: Global,
        at: LineText<'_>,
        place: u64,
        actor: u32,
        number: u64,
    ) -> Result<(), Stop>
        requires fit { IsFit self.old }
        ensures judged { Judges result (progress_of self.new) (act_judged (text_at at.entry) place actor number (progress_of self.old)) }
        ensures fit { OnOk result (IsFit self.new) }
    {
        if place < self.place || clock_left(&self.queues) < place - self.place {
            return Err(unreadable(at));
        }
        self.fill(alloc, at, place - self.place)?;
        self.take_item(alloc, at, actor, number)
    }
}
