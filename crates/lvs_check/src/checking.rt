//! The verdict on a report.
ghost use Rattle.std.specs.Prelude.{◌≡◌, IfOk};
ghost use Rattle.std.specs.List.{slice_split};
ghost use Rattle.lvs_types.specs.declared.script.Script.{Script};
ghost use Rattle.lvs_types.specs.declared.report.Verdict.TheVariants as verdict;
ghost use Rattle.lvs_model.specs.Lines.{is_feed};
ghost use Rattle.lvs_model.specs.Checking.{judged_from, judgement};
ghost use Rattle.lvs_model.specs.ScriptLimits.{IsWithinLimits};
ghost use Rattle.lvs_verdicts.specs.LegalTexts.{IsTextOfLegalBooks, AreNamed};
ghost use Rattle.lvs_check.specs.Kinds.{sizes_in, AreGood, judged_with};
ghost use Rattle.lvs_check.specs.Walks.{progress_of, IsFit};

use crate::line::{ONE_EACH, RoundSizes, kind_of, sizes_said};
use crate::refusal::{LineText, verdict_of};
use crate::walk::{Walk, begin};
use lvs_lines::cut_line;
use lvs_types::{NoMemory, Script, Verdict};
use std::alloc::Global;

/// The workers and buckets that all heads must say, by the report's first line.
fn first_sizes(alloc: Global, report: &[u8]) -> Result<RoundSizes, NoMemory>
    ensures good { IfOk result (λ sizes. AreGood sizes) }
    ensures judged { (script : Script) → IfOk result (λ sizes. judged_with script report.now (sizes_in sizes) ≡ judgement script report.now) }
{
    let Some((line, _after)) = cut_line(report) else {
        return Ok(ONE_EACH);
    };
    Ok(sizes_said(kind_of(alloc, &report[..line.len() + 1])?))
}

/// Judges line after line, and then the report's end.
fn judge(
    alloc: Global,
    sizes: RoundSizes,
    walk: &mut Walk<'_>,
    report: &[u8],
) -> Result<Verdict, NoMemory>
    requires good { AreGood sizes }
    requires fit { IsFit walk.old }
    ensures { IfOk result (λ verdict. verdict ≡ judged_from (sizes_in sizes) 1 (progress_of walk.old) (slice_split is_feed report.now)) }
{
    let mut number = 1;
    let mut rest = report;
    while let Some((text, after)) = cut_line(rest) {
        let at = LineText { number, text };
        match walk.take_line(alloc, sizes, at, &rest[..text.len() + 1]) {
            Ok(()) => {}
            Err(stop) => return verdict_of(stop),
        }
        number += 1;
        rest = after;
    }
    walk.finish(alloc, number, rest)
}

/// The judgement of a report.
fn judge_report(alloc: Global, script: &Script, report: &[u8]) -> Result<Verdict, NoMemory>
    requires within { IsWithinLimits script.now.rounds }
    ensures { IfOk result (λ verdict. verdict ≡ judgement script.now report.now) }
{
    let sizes = first_sizes(alloc, report)?;
    let mut walk = begin(alloc, script, sizes)?;
    judge(alloc, sizes, &mut walk, report)
}

/// The verdict on a report of a script, which is within the limits of scripts: legal, or the first
/// line that fails, from 1, and where its text isn't the director's both texts (this project's
/// profile). A legal report is the text of legal books of the script, and the text of such books is
/// legal where the script's listings have names, as those of each script that was read do.
pub fn check(alloc: Global, script: &Script, report: &[u8]) -> Result<Verdict, NoMemory>
    requires within { IsWithinLimits script.now.rounds }
    ensures judged { IfOk result (λ verdict. verdict ≡ judgement script.now report.now) }
    ensures legal { IfOk result (λ said. said ≡ verdict.Legal → IsTextOfLegalBooks script.now report.now) }
    ensures text { AreNamed script.now.rounds → IsTextOfLegalBooks script.now report.now → IfOk result (λ said. said ≡ verdict.Legal) }
{
    judge_report(alloc, script, report)
}
