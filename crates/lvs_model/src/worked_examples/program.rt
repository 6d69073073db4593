//! Worked examples: the program's words, its input, and what it writes of a check and of a demonstration.
ghost use Rattle.std.specs.Prelude.{◌≡◌, [], ◌∷◌, ◌++◌, Ok, Err, codes};
ghost use Rattle.lvs_types.specs.declared.program.ProgramCommand.TheVariants as program;
ghost use Rattle.lvs_types.specs.declared.report.Verdict.TheVariants as verdict;
ghost use Rattle.lvs_model.specs.Generated.{demo_local, generated};
ghost use Rattle.lvs_model.specs.State.{initial};
ghost use Rattle.lvs_model.specs.Snapshots.{snapshot_of};
ghost use Rattle.lvs_model.specs.ProgramWords.{command_of};
ghost use Rattle.lvs_model.specs.Inputs.{parts_of};
ghost use Rattle.lvs_model.specs.Verdicts.{verdict_text};
ghost use Rattle.lvs_model.specs.Summaries.{summary_with, summary_text};
ghost use Rattle.lvs_model.specs.ExampleBooks.{text_of_lines, serial_books, four_servers};

/// The six commands.
pub fn commands()
    ensures serial { command_of (codes "serial" ∷ []) ≡ Ok program.Serial }
    ensures run { command_of (codes "run" ∷ codes "16" ∷ codes "0256" ∷ []) ≡ Ok (program.Run 16 256) }
    ensures check { command_of (codes "check" ∷ []) ≡ Ok program.Check }
    ensures demo { command_of (codes "demo" ∷ codes "100000" ∷ []) ≡ Ok (program.Demo 100000) }
    ensures capture { command_of (codes "capture" ∷ codes "192.168.0.0" ∷ codes "16" ∷ codes "1" ∷ []) ≡ Ok (program.Capture (record { number = 3232235520 }) 16 1) }
    ensures whole_net { command_of (codes "capture" ∷ codes "0.0.0.0" ∷ codes "0" ∷ codes "86400" ∷ []) ≡ Ok (program.Capture (record { number = 0 }) 0 86400) }
    ensures pair { command_of (codes "pair" ∷ codes "1029" ∷ []) ≡ Ok (program.Pair (1 ∷ 0 ∷ 2 ∷ 9 ∷ [])) }
{}

/// The first refused word, from left to right.
pub fn refused_words()
    ensures none { command_of [] ≡ Err 0 }
    ensures unknown { command_of (codes "Serial" ∷ codes "4" ∷ []) ≡ Err 0 }
    ensures extra { command_of (codes "serial" ∷ codes "4" ∷ []) ≡ Err 1 }
    ensures check_extra { command_of (codes "check" ∷ codes "x" ∷ []) ≡ Err 1 }
    ensures missing { command_of (codes "run" ∷ codes "4" ∷ []) ≡ Err 2 }
    ensures wrong_before_missing { command_of (codes "run" ∷ codes "x" ∷ []) ≡ Err 1 }
    ensures wrong_before_extra { command_of (codes "run" ∷ codes "4" ∷ codes "x" ∷ codes "y" ∷ []) ≡ Err 2 }
    ensures third_number { command_of (codes "run" ∷ codes "4" ∷ codes "16" ∷ codes "y" ∷ []) ≡ Err 3 }
    ensures no_workers { command_of (codes "run" ∷ codes "0" ∷ codes "16" ∷ []) ≡ Err 1 }
    ensures many_workers { command_of (codes "run" ∷ codes "17" ∷ codes "16" ∷ []) ≡ Err 1 }
    ensures many_buckets { command_of (codes "run" ∷ codes "16" ∷ codes "257" ∷ []) ≡ Err 2 }
    ensures eleven_digits { command_of (codes "demo" ∷ codes "00000000001" ∷ []) ≡ Err 1 }
    ensures many_clients { command_of (codes "demo" ∷ codes "100001" ∷ []) ≡ Err 1 }
    ensures no_net { command_of (codes "capture" ∷ codes "192.168.0" ∷ codes "33" ∷ codes "0" ∷ []) ≡ Err 1 }
    ensures many_bits { command_of (codes "capture" ∷ codes "192.168.0.0" ∷ codes "33" ∷ codes "0" ∷ []) ≡ Err 2 }
    ensures no_step { command_of (codes "capture" ∷ codes "192.168.0.0" ∷ codes "16" ∷ codes "0" ∷ []) ≡ Err 3 }
    ensures missing_step { command_of (codes "capture" ∷ codes "192.168.0.0" ∷ codes "16" ∷ []) ≡ Err 3 }
    ensures fourth_number { command_of (codes "capture" ∷ codes "192.168.0.0" ∷ codes "16" ∷ codes "1" ∷ codes "1" ∷ []) ≡ Err 4 }
    ensures no_counts { command_of (codes "pair" ∷ []) ≡ Err 1 }
    ensures empty_counts { command_of (codes "pair" ∷ [] ∷ []) ≡ Err 1 }
    ensures letters { command_of (codes "pair" ∷ codes "1a" ∷ []) ≡ Err 1 }
    ensures many_counts { command_of (codes "pair" ∷ codes "11111111111111111111111111111111111111111111111111111111111111111" ∷ []) ≡ Err 1 }
    ensures counts_extra { command_of (codes "pair" ∷ codes "1" ∷ codes "1" ∷ []) ≡ Err 2 }
{}

/// An input is cut at the first line that is exactly the word.
pub fn inputs_are_cut()
    ensures cut { parts_of (codes "report") (text_of_lines (codes "at 0" ∷ codes "list" ∷ codes "report" ∷ codes "round" ∷ codes "report" ∷ [])) ≡ record { first = text_of_lines (codes "at 0" ∷ codes "list" ∷ []); second = text_of_lines (codes "round" ∷ codes "report" ∷ []); lines = 3 } }
    ensures carriage_return { parts_of (codes "backup") (codes "at 0" ++ 13 ∷ 10 ∷ codes "backup" ++ 13 ∷ 10 ∷ codes "at 1") ≡ record { first = codes "at 0" ++ 13 ∷ 10 ∷ []; second = codes "at 1"; lines = 2 } }
    ensures at_once { parts_of (codes "capture") (codes "capture" ++ 10 ∷ 10 ∷ 212 ∷ 195 ∷ []) ≡ record { first = []; second = 10 ∷ 212 ∷ 195 ∷ []; lines = 1 } }
    ensures unterminated { parts_of (codes "report") (codes "at 0" ++ 10 ∷ codes "report") ≡ record { first = codes "at 0" ++ 10 ∷ []; second = []; lines = 2 } }
    ensures unterminated_return { parts_of (codes "report") (codes "report" ++ 13 ∷ []) ≡ record { first = codes "report" ++ 13 ∷ []; second = []; lines = 1 } }
    ensures remark { parts_of (codes "report") (codes "# report" ++ 10 ∷ codes " report" ++ 10 ∷ []) ≡ record { first = codes "# report" ++ 10 ∷ codes " report" ++ 10 ∷ []; second = []; lines = 2 } }
    ensures whole { parts_of (codes "report") (codes "at 0" ++ 10 ∷ codes "list") ≡ record { first = codes "at 0" ++ 10 ∷ codes "list"; second = []; lines = 2 } }
    ensures empty { parts_of (codes "report") [] ≡ record { first = []; second = []; lines = 0 } }
{}

/// What `check` writes.
pub fn verdicts_are_told()
    ensures legal { verdict_text verdict.Legal ≡ text_of_lines (codes "legal" ∷ []) }
    ensures unreadable { verdict_text (verdict.Unreadable 12) ≡ text_of_lines (codes "unreadable line 12" ∷ []) }
    ensures illegal { verdict_text (verdict.Illegal 6 (codes "6 3.1 pass") (codes "6 3.1 drop gone")) ≡ text_of_lines (codes "illegal line 6" ∷ codes "expected 6 3.1 pass" ∷ codes "found 6 3.1 drop gone" ∷ []) }
    ensures empty { verdict_text (verdict.Illegal 2 [] []) ≡ text_of_lines (codes "illegal line 2" ∷ codes "expected " ∷ codes "found " ∷ []) }
{}

/// The summary of ten clients, from its numbers.
pub fn ten_clients()
    ensures { summary_with 3 20 20 10 (four_servers 3 3 2 2) ≡ text_of_lines (codes "rounds 3" ∷ codes "packets 20" ∷ codes "forwarded 20" ∷ codes "entries 10" ∷ codes "server 192.168.0.1:80 active 3 inactive 0" ∷ codes "server 192.168.0.2:80 active 3 inactive 0" ∷ codes "server 192.168.0.3:80 active 2 inactive 0" ∷ codes "server 192.168.0.4:80 active 2 inactive 0" ∷ []) }
{}

/// The summary of two clients, whose packets go to the first two servers: computed from its rounds.
pub fn two_clients()
    ensures { let played = serial_books 0 (initial demo_local 1) (generated 2).rounds in summary_text played.0 (snapshot_of played.1) ≡ text_of_lines (codes "rounds 3" ∷ codes "packets 4" ∷ codes "forwarded 4" ∷ codes "entries 2" ∷ codes "server 192.168.0.1:80 active 1 inactive 0" ∷ codes "server 192.168.0.2:80 active 1 inactive 0" ∷ codes "server 192.168.0.3:80 active 0 inactive 0" ∷ codes "server 192.168.0.4:80 active 0 inactive 0" ∷ []) }
{}
