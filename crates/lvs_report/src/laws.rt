//! Laws of the definitions. A function without a body carries each of them.
ghost use Rattle.std.specs.Prelude.{◌≡◌, Ok};
ghost use Rattle.lvs_types.specs.declared.book.RoundBook.{RoundBook};
ghost use Rattle.lvs_model.specs.Report.{round_text};
ghost use Rattle.lvs_model.specs.ReportReading.{report_of};
ghost use Rattle.lvs_model.specs.ReportLines.{IsReadAgain, report_lines};

/// What is printed of a round is read again: its head, its printed acts and its listings, where the
/// listings are lines that each end with a line feed, none of them exactly `end`.
pub fn what_is_printed_is_read()
    ensures { (book : RoundBook) → IsReadAgain book → report_of (round_text book) ≡ Ok (report_lines book) }
{}
