//! One line of the report, and its end.
ghost use Rattle.std.specs.Prelude.{◌≡◌, IfOk, OnOk};
ghost use Rattle.lvs_model.specs.ReportReading.{line_of};
ghost use Rattle.lvs_model.specs.Checking.{read_judged, line_judged, last_judged};
ghost use Rattle.lvs_check.specs.Judging.{text_at, Judges};
ghost use Rattle.lvs_check.specs.Kinds.{sizes_in, AreGood};
ghost use Rattle.lvs_check.specs.Texts.{IsWhole};
ghost use Rattle.lvs_check.specs.Walks.{progress_of, IsFit};

use crate::line::{LineKind, RoundSizes, kind_of};
use crate::refusal::{LineText, Stop, check_text, unreadable};
use crate::walk::Walk;
use lvs_types::{NoMemory, Verdict};
use std::alloc::Global;

impl Walk<'_> {
    /// A line outside listings, which is also given with its line feed.
    fn take_outside(
        &mut self,
        alloc: Global,
        sizes: RoundSizes,
        at: LineText<'_>,
        whole: &[u8],
    ) -> Result<(), Stop>
        requires good { AreGood sizes }
        requires fit { IsFit self.old }
        requires whole { IsWhole whole.now at.text.now }
        ensures judged { Judges result (progress_of self.new) (read_judged (sizes_in sizes) (text_at at.entry) (line_of at.entry.text.now) (progress_of self.old)) }
        ensures fit { OnOk result (IsFit self.new) }
    {
        match kind_of(alloc, whole)? {
            LineKind::Unknown => Err(unreadable(at)),
            LineKind::Head(_) => self.take_head(alloc, sizes, at),
            LineKind::Act {
                place,
                actor,
                number,
            } => self.take_act(alloc, at, place, actor, number),
            LineKind::Listing => self.take_listing(alloc, at),
        }
    }

    /// A line, which is also given with its line feed.
    pub(crate) fn take_line(
        &mut self,
        alloc: Global,
        sizes: RoundSizes,
        at: LineText<'_>,
        whole: &[u8],
    ) -> Result<(), Stop>
        requires good { AreGood sizes }
        requires fit { IsFit self.old }
        requires whole { IsWhole whole.now at.text.now }
        ensures judged { Judges result (progress_of self.new) (line_judged (sizes_in sizes) (text_at at.entry) self.old.due (progress_of self.old)) }
        ensures fit { OnOk result (IsFit self.new) }
    {
        let Some(expected) = self.due.next() else {
            return self.take_outside(alloc, sizes, at, whole);
        };
        check_text(alloc, at, expected)?;
        self.due.pop();
        Ok(())
    }

    /// The report's end, behind whose last line feed this stands.
    pub(crate) fn finish(
        &mut self,
        alloc: Global,
        number: u64,
        last: &[u8],
    ) -> Result<Verdict, NoMemory>
        requires fit { IsFit self.old }
        ensures { IfOk result (λ verdict. verdict ≡ last_judged number last.now (progress_of self.old)) }
    {
        if !last.is_empty() || self.due.next().is_some() {
            return Ok(Verdict::Unreadable { line: number });
        }
        match self.end_round(alloc, LineText { number, text: last }) {
            Ok(()) => {}
            Err(Stop::Refused(verdict)) => return Ok(verdict),
            Err(Stop::NoMemory) => return Err(NoMemory),
        }
        if self.rounds.is_empty() {
            Ok(Verdict::Legal)
        } else {
            Ok(Verdict::Unreadable { line: number })
        }
    }
}
