//! Heads, and the first lines of listings.
ghost use Rattle.std.specs.Prelude.{◌≡◌, ◌∷◌, ◌≤◌, ◌+◌, ◌^◌, List, OnOk};
ghost use Rattle.lvs_types.specs.declared.script.Round.{Round};
ghost use Rattle.lvs_model.specs.Checking.{round_begun, head_said, head_judged, listing_opened, listing_judged};
ghost use Rattle.lvs_check.specs.Judging.{text_at, Judges};
ghost use Rattle.lvs_check.specs.Kinds.{sizes_in, AreGood};
ghost use Rattle.lvs_check.specs.Walks.{progress_of, IsFit};

use crate::due::Due;
use crate::line::RoundSizes;
use crate::listing::listing_lines;
use crate::queue::queues_of;
use crate::refusal::{LineText, Stop, unreadable};
use crate::walk::Walk;
use crate::words::{head_words, shown_name};
use lvs_script::plan;
use lvs_types::{Item, NoMemory, Round};
use std::alloc::Global;
use std::collections::VecDeque;

impl<'a> Walk<'a> {
    /// A round begins at its moment, with what its plan says.
    fn begin_round(
        &mut self,
        alloc: Global,
        sizes: RoundSizes,
        round: &'a Round,
        rounds: &'a [Round],
    ) -> Result<(), NoMemory>
        requires good { AreGood sizes }
        requires fit { IsFit self.old }
        requires next { self.old.rounds.now ≡ round.now ∷ rounds.now }
        ensures begun { OnOk result (progress_of self.new ≡ round_begun (sizes_in sizes) round.now rounds.now (progress_of self.old)) }
        ensures fit { OnOk result (IsFit self.new) }
    {
        let plan = plan(alloc, round, sizes.workers, sizes.buckets)?;
        self.director.step(alloc, Item::Tick(round.moment))?;
        self.queues = queues_of(alloc, plan.lists.into_vec())?;
        self.shown = VecDeque::from(plan.shown.into_vec());
        self.number += 1;
        self.rounds = rounds;
        self.place = 0;
        self.due = Due::none(alloc);
        Ok(())
    }

    /// A head says the next round's number and moment, and the workers and buckets of all rounds.
    fn say_head(&mut self, alloc: Global, sizes: RoundSizes, at: LineText<'_>) -> Result<(), Stop>
        requires good { AreGood sizes }
        requires fit { IsFit self.old }
        ensures judged { Judges result (progress_of self.new) (head_said (sizes_in sizes) (text_at at.entry) self.old.rounds.now (progress_of self.old)) }
        ensures fit { OnOk result (IsFit self.new) }
    {
        let [round, rounds @ ..] = self.rounds else {
            return Err(unreadable(at));
        };
        let expected = head_words(alloc, self.number, round.moment, sizes)?;
        if at.text != expected.as_slice() {
            return Err(unreadable(at));
        }
        Ok(self.begin_round(alloc, sizes, round, rounds)?)
    }

    /// A head ends the round before it.
    pub(crate) fn take_head(
        &mut self,
        alloc: Global,
        sizes: RoundSizes,
        at: LineText<'_>,
    ) -> Result<(), Stop>
        requires good { AreGood sizes }
        requires fit { IsFit self.old }
        ensures judged { Judges result (progress_of self.new) (head_judged (sizes_in sizes) (text_at at.entry) (progress_of self.old)) }
        ensures fit { OnOk result (IsFit self.new) }
    {
        self.end_round(alloc, at)?;
        self.say_head(alloc, sizes, at)
    }

    /// The first line of the next listing.
    fn open_listing(&mut self, alloc: Global, at: LineText<'_>) -> Result<(), Stop>
        requires fit { IsFit self.old }
        ensures judged { Judges result (progress_of self.new) (listing_opened (text_at at.entry) self.old.shown.items (progress_of self.old)) }
        ensures fit { OnOk result (IsFit self.new) }
    {
        let Some(kind) = self.shown.pop_front() else {
            return Err(unreadable(at));
        };
        let expected = shown_name(alloc, &kind)?;
        if at.text != expected.as_slice() {
            return Err(unreadable(at));
        }
        self.due = listing_lines(alloc, &mut self.director, &kind)?;
        Ok(())
    }

    /// The first line of a listing ends the round's acts.
    pub(crate) fn take_listing(&mut self, alloc: Global, at: LineText<'_>) -> Result<(), Stop>
        requires fit { IsFit self.old }
        ensures judged { Judges result (progress_of self.new) (listing_judged (text_at at.entry) (progress_of self.old)) }
        ensures fit { OnOk result (IsFit self.new) }
    {
        self.end_acts(alloc, at)?;
        self.open_listing(alloc, at)
    }
}
