//! Worked examples: which reports are legal, and the first line at which another one isn't.
ghost use Rattle.std.specs.Prelude.{◌≡◌, ℕ, [], ◌∷◌, ◌++◌, true, false, codes};
ghost use Rattle.std.specs.List.{join_with_byte};
ghost use Rattle.lvs_types.specs.declared.book.Noted.{Noted};
ghost use Rattle.lvs_types.specs.declared.book.RoundBook.{RoundBook};
ghost use Rattle.lvs_types.specs.declared.book.Shown.{Shown};
ghost use Rattle.lvs_types.specs.declared.report.Verdict.TheVariants as verdict;
ghost use Rattle.lvs_model.specs.State.{State};
ghost use Rattle.lvs_model.specs.Report as report;
ghost use Rattle.lvs_model.specs.Report.{is_printed, act_line, head_text, shown_name};
ghost use Rattle.lvs_model.specs.Listings as listings;
ghost use Rattle.lvs_model.specs.Progress.{head_words, act_words, listing_lines};
ghost use Rattle.lvs_model.specs.Checking.{judgement};
ghost use Rattle.lvs_model.specs.ExampleBooks.{text_of_lines};
ghost use Rattle.lvs_model.specs.ExampleReports.{one_round, three_syns, two_strangers, web_tables, web_head, due_connection, connected, first_syn, second_syn, third_syn};

/// The report of `serial`; with a wrong server at place 6; and without the line of place 6, which
/// the clock's last item then fills, so that 3.2 isn't the next item of its actor.
pub fn three_connections()
    ensures legal { judgement three_syns (text_of_lines (codes "round 0 at 0 workers 1 buckets 1" ∷ codes "2 1.0 ok" ∷ codes "3 1.1 ok" ∷ codes "4 1.2 ok" ∷ (codes "5 3.0 fwd direct 192.168.0.1 " ++ first_syn) ∷ (codes "6 3.1 fwd direct 192.168.0.2 " ++ second_syn) ∷ (codes "7 3.2 fwd direct 192.168.0.1 " ++ third_syn) ∷ [])) ≡ verdict.Legal }
    ensures illegal { judgement three_syns (text_of_lines (codes "round 0 at 0 workers 1 buckets 1" ∷ codes "2 1.0 ok" ∷ codes "3 1.1 ok" ∷ codes "4 1.2 ok" ∷ (codes "5 3.0 fwd direct 192.168.0.1 " ++ first_syn) ∷ (codes "6 3.1 fwd direct 192.168.0.1 " ++ second_syn) ∷ (codes "7 3.2 fwd direct 192.168.0.1 " ++ third_syn) ∷ [])) ≡ verdict.Illegal 6 (codes "6 3.1 fwd direct 192.168.0.2 " ++ second_syn) (codes "6 3.1 fwd direct 192.168.0.1 " ++ second_syn) }
    ensures left_out { judgement three_syns (text_of_lines (codes "round 0 at 0 workers 1 buckets 1" ∷ codes "2 1.0 ok" ∷ codes "3 1.1 ok" ∷ codes "4 1.2 ok" ∷ (codes "5 3.0 fwd direct 192.168.0.1 " ++ first_syn) ∷ (codes "7 3.2 fwd direct 192.168.0.1 " ++ third_syn) ∷ [])) ≡ verdict.Unreadable 6 }
{}

/// Four workers and sixteen buckets: the acts may stand in any order that keeps each actor's, and
/// the servers take turns by place.
pub fn another_order()
    ensures turned { judgement three_syns (text_of_lines (codes "round 0 at 0 workers 4 buckets 16" ∷ codes "0 1.0 ok" ∷ codes "1 1.1 ok" ∷ codes "3 1.2 ok" ∷ (codes "4 6.0 fwd direct 192.168.0.1 " ++ second_syn) ∷ (codes "5 4.0 fwd direct 192.168.0.2 " ++ first_syn) ∷ (codes "6 4.1 fwd direct 192.168.0.1 " ++ third_syn) ∷ [])) ≡ verdict.Legal }
    ensures early { judgement two_strangers (text_of_lines (codes "round 0 at 0 workers 4 buckets 1" ∷ codes "0 6.0 pass" ∷ codes "1 4.0 pass" ∷ [])) ≡ verdict.Legal }
    ensures other_worker { judgement two_strangers (text_of_lines (codes "round 0 at 0 workers 4 buckets 1" ∷ codes "0 4.0 pass" ∷ codes "1 5.0 pass" ∷ [])) ≡ verdict.Unreadable 3 }
    ensures no_worker { judgement two_strangers (text_of_lines (codes "round 0 at 0 workers 4 buckets 1" ∷ codes "0 7.0 pass" ∷ [])) ≡ verdict.Unreadable 2 }
{}

/// Listings are compared line by line, up to their `end`.
pub fn listings_are_compared()
    ensures legal { judgement web_tables (text_of_lines (web_head ∷ codes "2 1.0 ok" ∷ codes "3 1.1 ok" ∷ codes "list" ∷ codes "TCP 10.0.0.1:80 rr" ∷ codes "  -> 192.168.0.1:80 Route 1 0 0" ∷ codes "end" ∷ codes "conns" ∷ codes "end" ∷ [])) ≡ verdict.Legal }
    ensures at_once { judgement web_tables (text_of_lines (web_head ∷ codes "0 1.0 ok" ∷ codes "1 1.1 ok" ∷ codes "list" ∷ codes "TCP 10.0.0.1:80 rr" ∷ codes "  -> 192.168.0.1:80 Route 1 0 0" ∷ codes "end" ∷ codes "conns" ∷ codes "end" ∷ [])) ≡ verdict.Legal }
    ensures other_line { judgement web_tables (text_of_lines (web_head ∷ codes "2 1.0 ok" ∷ codes "3 1.1 ok" ∷ codes "list" ∷ codes "TCP 10.0.0.1:80 wlc" ∷ [])) ≡ verdict.Illegal 5 (codes "TCP 10.0.0.1:80 rr") (codes "TCP 10.0.0.1:80 wlc") }
    ensures line_left_out { judgement web_tables (text_of_lines (web_head ∷ codes "2 1.0 ok" ∷ codes "3 1.1 ok" ∷ codes "list" ∷ codes "TCP 10.0.0.1:80 rr" ∷ codes "end" ∷ [])) ≡ verdict.Illegal 6 (codes "  -> 192.168.0.1:80 Route 1 0 0") (codes "end") }
    ensures line_more { judgement web_tables (text_of_lines (web_head ∷ codes "2 1.0 ok" ∷ codes "3 1.1 ok" ∷ codes "list" ∷ codes "TCP 10.0.0.1:80 rr" ∷ codes "  -> 192.168.0.1:80 Route 1 0 0" ∷ [] ∷ [])) ≡ verdict.Illegal 7 (codes "end") [] }
    ensures cut_off { judgement web_tables (text_of_lines (web_head ∷ codes "2 1.0 ok" ∷ codes "3 1.1 ok" ∷ codes "list" ∷ codes "TCP 10.0.0.1:80 rr" ∷ [])) ≡ verdict.Unreadable 6 }
    ensures unterminated { judgement web_tables (text_of_lines (web_head ∷ codes "2 1.0 ok" ∷ codes "3 1.1 ok" ∷ codes "list" ∷ []) ++ codes "TCP 10.0.0.1:80 wlc") ≡ verdict.Unreadable 5 }
    ensures out_of_order { judgement web_tables (text_of_lines (web_head ∷ codes "2 1.0 ok" ∷ codes "3 1.1 ok" ∷ codes "conns" ∷ [])) ≡ verdict.Unreadable 4 }
    ensures missing { judgement web_tables (text_of_lines (web_head ∷ codes "2 1.0 ok" ∷ codes "3 1.1 ok" ∷ [])) ≡ verdict.Unreadable 4 }
    ensures surplus { judgement (one_round 5 []) (text_of_lines (web_head ∷ codes "list" ∷ codes "end" ∷ [])) ≡ verdict.Unreadable 2 }
    ensures act_behind { judgement web_tables (text_of_lines (web_head ∷ codes "2 1.0 ok" ∷ codes "3 1.1 ok" ∷ codes "list" ∷ codes "TCP 10.0.0.1:80 rr" ∷ codes "  -> 192.168.0.1:80 Route 1 0 0" ∷ codes "end" ∷ codes "5 1.2 ok" ∷ [])) ≡ verdict.Unreadable 8 }
{}

/// Lines that are missing, doubled, or not in order.
pub fn lines_in_order()
    ensures left_out { judgement web_tables (text_of_lines (web_head ∷ codes "3 1.1 ok" ∷ [])) ≡ verdict.Unreadable 2 }
    ensures doubled { judgement web_tables (text_of_lines (web_head ∷ codes "2 1.0 ok" ∷ codes "2 1.0 ok" ∷ [])) ≡ verdict.Unreadable 3 }
    ensures far { judgement web_tables (text_of_lines (web_head ∷ codes "4 1.0 ok" ∷ [])) ≡ verdict.Unreadable 2 }
    ensures item_missing { judgement web_tables (text_of_lines (web_head ∷ codes "2 1.0 ok" ∷ codes "list" ∷ [])) ≡ verdict.Unreadable 3 }
    ensures item_more { judgement web_tables (text_of_lines (web_head ∷ codes "2 1.0 ok" ∷ codes "3 1.1 ok" ∷ codes "4 1.2 ok" ∷ [])) ≡ verdict.Unreadable 4 }
    ensures other_answer { judgement web_tables (text_of_lines (web_head ∷ codes "2 1.0 ok" ∷ codes "3 1.1 refused exists" ∷ [])) ≡ verdict.Illegal 3 (codes "3 1.1 ok") (codes "3 1.1 refused exists") }
    ensures no_line { judgement web_tables (text_of_lines (web_head ∷ codes "2 1.0 ok" ∷ [] ∷ [])) ≡ verdict.Unreadable 3 }
    ensures end_alone { judgement web_tables (text_of_lines (web_head ∷ codes "end" ∷ [])) ≡ verdict.Unreadable 2 }
{}

/// Heads: one for each round of the script, with its number and moment, and with workers and
/// buckets that are in their limits and those of the first.
pub fn heads_in_order()
    ensures nothing { judgement (record { local = record { number = 0 }; rounds = [] }) [] ≡ verdict.Legal }
    ensures no_script { judgement (record { local = record { number = 0 }; rounds = [] }) (text_of_lines (web_head ∷ [])) ≡ verdict.Unreadable 1 }
    ensures no_report { judgement (one_round 5 []) [] ≡ verdict.Unreadable 1 }
    ensures no_head { judgement (one_round 5 []) (text_of_lines (codes "0 1.0 ok" ∷ [])) ≡ verdict.Unreadable 1 }
    ensures one { judgement (one_round 5 []) (text_of_lines (web_head ∷ [])) ≡ verdict.Legal }
    ensures largest { judgement (one_round 5 []) (text_of_lines (codes "round 0 at 5 workers 16 buckets 1" ∷ [])) ≡ verdict.Legal }
    ensures many_workers { judgement (one_round 5 []) (text_of_lines (codes "round 0 at 5 workers 17 buckets 1" ∷ [])) ≡ verdict.Unreadable 1 }
    ensures no_buckets { judgement (one_round 5 []) (text_of_lines (codes "round 0 at 5 workers 1 buckets 0" ∷ [])) ≡ verdict.Unreadable 1 }
    ensures other_number { judgement (one_round 5 []) (text_of_lines (codes "round 1 at 5 workers 1 buckets 1" ∷ [])) ≡ verdict.Unreadable 1 }
    ensures other_moment { judgement (one_round 5 []) (text_of_lines (codes "round 0 at 6 workers 1 buckets 1" ∷ [])) ≡ verdict.Unreadable 1 }
    ensures behind_the_last { judgement (one_round 5 []) (text_of_lines (web_head ∷ codes "round 1 at 5 workers 1 buckets 1" ∷ [])) ≡ verdict.Unreadable 2 }
    ensures unterminated { judgement (one_round 5 []) web_head ≡ verdict.Unreadable 1 }
    ensures other_workers { judgement due_connection (text_of_lines (connected ++ codes "round 1 at 60 workers 2 buckets 1" ∷ [])) ≡ verdict.Unreadable 5 }
    ensures head_missing { judgement due_connection (text_of_lines connected) ≡ verdict.Unreadable 5 }
{}

/// What the clock changes has a line, and what changes nothing has none.
pub fn the_clock()
    ensures legal { judgement due_connection (text_of_lines (connected ++ codes "round 1 at 60 workers 1 buckets 1" ∷ codes "0 0.0 swept 1" ∷ codes "2 1.0 ok" ∷ [])) ≡ verdict.Legal }
    ensures skipped { judgement due_connection (text_of_lines (connected ++ codes "round 1 at 60 workers 1 buckets 1" ∷ codes "2 1.0 ok" ∷ [])) ≡ verdict.Illegal 6 (codes "0 0.0 swept 1") (codes "2 1.0 ok") }
    ensures before_order { judgement due_connection (text_of_lines (connected ++ codes "round 1 at 60 workers 1 buckets 1" ∷ codes "1 1.1 ok" ∷ [])) ≡ verdict.Illegal 6 (codes "0 0.0 swept 1") (codes "1 1.1 ok") }
    ensures left { judgement due_connection (text_of_lines (connected ++ codes "round 1 at 60 workers 1 buckets 1" ∷ [])) ≡ verdict.Illegal 6 (codes "0 0.0 swept 1") [] }
    ensures released { judgement due_connection (text_of_lines (connected ++ codes "round 1 at 60 workers 1 buckets 1" ∷ codes "0 1.0 ok" ∷ codes "1 0.0 swept 1" ∷ codes "2 0.1 reaped 0 0 1" ∷ [])) ≡ verdict.Legal }
    ensures silent { judgement (one_round 5 []) (text_of_lines (web_head ∷ codes "0 0.0 swept 0" ∷ [])) ≡ verdict.Illegal 2 [] (codes "0 0.0 swept 0") }
    ensures silent_behind { judgement (one_round 5 []) (text_of_lines (web_head ∷ codes "1 0.1 pass" ∷ [])) ≡ verdict.Illegal 2 [] (codes "1 0.1 pass") }
    ensures not_next { judgement (one_round 5 []) (text_of_lines (web_head ∷ codes "0 0.1 reaped 0 0 0" ∷ [])) ≡ verdict.Unreadable 2 }
{}

/// The lines that are compared are those of the report's text: heads, acts that have a line, and
/// listings up to their `end`.
pub fn the_lines_of_a_report()
    ensures head { (book : RoundBook) → head_words book.number book.moment (record { workers = book.workers; buckets = book.buckets }) ++ 10 ∷ [] ≡ head_text book }
    ensures printed { (place : ℕ) (act : Noted) → is_printed act.reply ≡ true → act_words place act.actor act.number act.reply ++ 10 ∷ [] ≡ act_line place act }
    ensures not_printed { (place : ℕ) (act : Noted) → is_printed act.reply ≡ false → act_words place act.actor act.number act.reply ≡ [] }
    ensures listing { (s : State) (kind : Shown) → shown_name kind ++ 10 ∷ [] ++ join_with_byte 10 (listing_lines s kind) ++ 10 ∷ [] ≡ report.shown_text (listings.shown_listing s kind) }
{}
