//! Worked examples of books: the acts of one round of `serial`, in order, each actor's own, and with the replies of the run; and a script with its legal books and their report.
ghost use Rattle.std.specs.Prelude.{◌≡◌, ◌++◌, [], ◌∷◌, None, Ok, codes};
ghost use Rattle.lvs_types.specs.declared.item.Item.TheVariants as item;
ghost use Rattle.lvs_types.specs.declared.reply.Reply.TheVariants as reply;
ghost use Rattle.lvs_types.specs.declared.command.Command.TheVariants as command;
ghost use Rattle.lvs_types.specs.declared.script.ScriptLine.TheVariants as line;
ghost use Rattle.lvs_model.specs.Books.{IsRun, IsSerial, AreFrom, acts_of, at_moment};
ghost use Rattle.lvs_model.specs.ExampleItems.{left_by, tunnel_source};
ghost use Rattle.lvs_model.specs.Legal.{AreLegalBooks};
ghost use Rattle.lvs_model.specs.Report.{books_text};
ghost use Rattle.lvs_model.specs.Scripts.{script_of};
ghost use Rattle.lvs_model.specs.State.{initial};
ghost use Rattle.lvs_laws.specs.BookExamples.{example_books, example_rounds, example_script, no_addr, script_text};

/// A round with one edit, at moment 5: its acts are a run from the state after the tick, they stand in the order
/// of `serial`, and the clock's and control's are theirs, numbered from 0.
pub fn a_round_of_one_edit()
    ensures run { IsRun (at_moment (initial tunnel_source 1) 5) (record { actor = 0; number = 0; item = item.Sweep 0; reply = reply.Swept 0 } ∷ record { actor = 0; number = 1; item = item.Reap; reply = reply.Reaped 0 0 0 } ∷ record { actor = 1; number = 0; item = item.Edit command.Clear; reply = reply.Done } ∷ record { actor = 0; number = 2; item = item.SendSync; reply = reply.Sent [] } ∷ []) (left_by (item.Tick 5 ∷ [])) }
    ensures serial { IsSerial (record { moment = 5; lines = line.Edit command.Clear ∷ [] }) (record { number = 0; moment = 5; workers = 1; buckets = 1; acts = record { actor = 0; number = 0; item = item.Sweep 0; reply = reply.Swept 0 } ∷ record { actor = 0; number = 1; item = item.Reap; reply = reply.Reaped 0 0 0 } ∷ record { actor = 1; number = 0; item = item.Edit command.Clear; reply = reply.Done } ∷ record { actor = 0; number = 2; item = item.SendSync; reply = reply.Sent [] } ∷ []; shown = [] }) }
    ensures control { acts_of 1 (record { actor = 0; number = 0; item = item.Sweep 0; reply = reply.Swept 0 } ∷ record { actor = 1; number = 0; item = item.Edit command.Clear; reply = reply.Done } ∷ []) ≡ record { actor = 1; number = 0; item = item.Edit command.Clear; reply = reply.Done } ∷ [] }
    ensures numbered { AreFrom 0 (item.Sweep 0 ∷ item.Reap ∷ []) (record { actor = 0; number = 0; item = item.Sweep 0; reply = reply.Swept 0 } ∷ record { actor = 0; number = 1; item = item.Reap; reply = reply.Reaped 0 0 0 } ∷ []) }
{}

/// A script of two rounds with listings, from its text to its legal books and the text of their report: in
/// the first round a service is added and listed, in the second the tables are cleared, and nothing is saved.
pub fn two_rounds_of_a_script()
    ensures read { script_of script_text ≡ Ok example_script }
    ensures legal { AreLegalBooks 1 1 0 (initial no_addr 1) example_rounds example_books }
    ensures report { books_text example_books ≡ codes "round 0 at 0 workers 1 buckets 1" ++ 10 ∷ codes "2 1.0 ok" ++ 10 ∷ codes "list" ++ 10 ∷ codes "TCP 10.0.0.1:80 rr" ++ 10 ∷ codes "end" ++ 10 ∷ codes "round 1 at 5 workers 1 buckets 1" ++ 10 ∷ codes "2 1.0 ok" ++ 10 ∷ codes "save" ++ 10 ∷ codes "end" ++ 10 ∷ [] }
{}
