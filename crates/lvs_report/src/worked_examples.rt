//! Worked examples of reading a report, which the prover computes.
ghost use Rattle.std.specs.Prelude.{◌≡◌, ℕ, List, [], ◌∷◌, ◌++◌, codes, Ok, Err, Some, None, true, false};
ghost use Rattle.lvs_types.specs.declared.report.ReportLine.TheVariants as line;
ghost use Rattle.lvs_types.specs.declared.book.Shown.TheVariants as shown;
ghost use Rattle.lvs_model.specs.ReportReading.{head_line_of, act_line_of, plain_number, report_of};
ghost use Rattle.lvs_model.specs.ReportLines.{is_listing_text, report_lines};
ghost use Rattle.lvs_types.specs.declared.item.Item.{Item};
ghost use Rattle.lvs_types.specs.declared.reply.Reply.{Reply};

/// A head, an act and a listing of one line.
pub fn a_short_report()
    ensures { report_of (codes "round 0 at 100 workers 4 buckets 16" ++ 10 ∷ codes "12 3.0 out 45ff" ++ 10 ∷ codes "list" ++ 10 ∷ codes "TCP 10.0.0.1:80 wlc" ++ 10 ∷ codes "end" ++ 10 ∷ []) ≡ Ok (line.Head 0 100 4 16 ∷ line.Act 12 3 0 (codes "out 45ff") ∷ line.Shown (record { kind = shown.List; text = codes "TCP 10.0.0.1:80 wlc" ++ 10 ∷ [] }) ∷ []) }
{}

/// A report that ends inside a listing is refused behind its last line, a last line without its
/// line feed at its own number.
pub fn ends_of_reports()
    ensures empty { report_of [] ≡ Ok [] }
    ensures open { report_of (codes "list" ++ 10 ∷ codes "x" ++ 10 ∷ []) ≡ Err 3 }
    ensures unterminated { report_of (codes "0 1.0 ok" ++ 10 ∷ codes "1 1.1 ok") ≡ Err 2 }
    ensures inside { report_of (codes "list" ++ 10 ∷ codes "end") ≡ Err 2 }
{}

/// Lines outside the grammar: a head without its moment, leading zeros, an act without a reply.
pub fn refused_lines()
    ensures moment { head_line_of (codes "round 0 workers 1 buckets 1") ≡ None }
    ensures zeros { plain_number 255 (codes "07") ≡ None }
    ensures zero { plain_number 255 (codes "0") ≡ Some 0 }
    ensures reply { act_line_of (codes "1 2.3 ") ≡ None }
    ensures dot { act_line_of (codes "1 2 3 ok") ≡ None }
{}

/// A line that begins with `end` ends no listing; a listing's text ends with a line feed.
pub fn texts_of_listings()
    ensures ends { report_of (codes "save" ++ 10 ∷ codes "ends" ++ 10 ∷ codes "end" ++ 10 ∷ []) ≡ Ok (line.Shown (record { kind = shown.Save; text = codes "ends" ++ 10 ∷ [] }) ∷ []) }
    ensures whole { is_listing_text (codes "x" ++ 10 ∷ codes "ends" ++ 10 ∷ []) ≡ true }
    ensures other { is_listing_text (codes "end" ++ 10 ∷ []) ≡ false }
    ensures cut { is_listing_text (codes "x") ≡ false }
{}

/// A round with a sweep of nothing, an edit and a listing: the sweep has no line.
pub fn lines_of_a_round()
    ensures { (sweep edit : Item) → report_lines (record { number = 7; moment = 60; workers = 1; buckets = 2; acts = record { actor = 0; number = 0; item = sweep; reply = Reply.Swept 0 } ∷ record { actor = 1; number = 0; item = edit; reply = Reply.Done } ∷ []; shown = record { kind = shown.Conns; text = [] } ∷ [] }) ≡ line.Head 7 60 1 2 ∷ line.Act 1 1 0 (codes "ok") ∷ line.Shown (record { kind = shown.Conns; text = [] }) ∷ [] }
{}
