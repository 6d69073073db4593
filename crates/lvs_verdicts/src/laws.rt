//! Laws of the judgement of reports. A function without a body carries each of them.
ghost use Rattle.std.specs.Prelude.{◌≡◌, ℕ, List, Ok};
ghost use Rattle.lvs_types.specs.declared.script.Script.{Script};
ghost use Rattle.lvs_types.specs.declared.report.Verdict.TheVariants as verdict;
ghost use Rattle.lvs_model.specs.Checking.{judgement};
ghost use Rattle.lvs_model.specs.ScriptLimits.{IsWithinLimits};
ghost use Rattle.lvs_model.specs.Scripts.{script_of};
ghost use Rattle.lvs_verdicts.specs.LegalTexts.{IsTextOfLegalBooks, AreNamed};

/// A report that is judged legal is the text of legal books of the script, one a round in order, for some
/// one number of workers and of buckets. Of the script nothing is asked.
pub fn legal_reports_are_texts_of_legal_books()
    ensures { (script : Script) (report : List ℕ) → judgement script report ≡ verdict.Legal → IsTextOfLegalBooks script report }
{}

/// The text of legal books of a script, one a round in order, is judged legal, for each number of workers and
/// of buckets within its limits. The script is within its own limits, and its listings have names.
pub fn texts_of_legal_books_are_legal_reports()
    ensures { (script : Script) (report : List ℕ) → IsWithinLimits script.rounds → AreNamed script.rounds → IsTextOfLegalBooks script report → judgement script report ≡ verdict.Legal }
{}

/// Each script that was read has listings with names: an ICMP error of a line has at least one byte.
pub fn scripts_that_were_read_have_named_listings()
    ensures { (text : List ℕ) (script : Script) → script_of text ≡ Ok script → AreNamed script.rounds }
{}
