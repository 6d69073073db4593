//! Worked examples: how each command of the program ends, and what is due of it.
ghost use Rattle.std.specs.Prelude.{◌≡◌, [], ◌∷◌, codes};
ghost use Rattle.lvs_types.specs.declared.program.ProgramCommand.TheVariants as program;
ghost use Rattle.lvs_types.specs.declared.report.Verdict.TheVariants as verdict;
ghost use Rattle.lvs_types.specs.declared.capture.CaptureCause.TheVariants as capture;
ghost use Rattle.lvs_types.specs.declared.script.ScriptCause.TheVariants as cause;
ghost use Rattle.lvs_types.specs.declared.status.Status.TheVariants as status;
ghost use Rattle.lvs_model.specs.ExampleBooks.{text_of_lines};
ghost use Rattle.lvs_model.specs.Tasks.{task_of, end_of, pair_task, rounds_due};

/// How each command ends with a small input.
pub fn commands_end()
    ensures serial { end_of (task_of program.Serial (text_of_lines (codes "at 0" ∷ []))) ≡ status.Finished }
    ensures refused { end_of (task_of (program.Run 4 16) (text_of_lines (codes "at 0" ∷ codes "at x" ∷ []))) ≡ status.ScriptRefused 2 cause.BadNumber }
    ensures legal { end_of (task_of program.Check (text_of_lines (codes "at 0" ∷ codes "report" ∷ codes "round 0 at 0 workers 4 buckets 16" ∷ []))) ≡ status.Finished }
    ensures no_report { end_of (task_of program.Check (text_of_lines (codes "at 0" ∷ []))) ≡ status.Illegal (verdict.Unreadable 1) }
    ensures demo { end_of (task_of (program.Demo 1) []) ≡ status.Finished }
    ensures no_capture { end_of (task_of (program.Capture (record { number = 0 }) 0 1) (text_of_lines (codes "at 0" ∷ []))) ≡ status.CaptureRefused 0 capture.Short }
    ensures script_first { end_of (task_of (program.Capture (record { number = 0 }) 0 1) (text_of_lines (codes "at x" ∷ codes "capture" ∷ []))) ≡ status.ScriptRefused 1 cause.BadNumber }
    ensures pair { end_of (task_of (program.Pair (1 ∷ [])) (text_of_lines (codes "at 0" ∷ codes "backup" ∷ codes "at 5" ∷ []))) ≡ status.Finished }
    ensures backup_refused { end_of (task_of (program.Pair (1 ∷ [])) (text_of_lines (codes "at 0" ∷ codes "backup" ∷ codes "at x" ∷ []))) ≡ status.ScriptRefused 3 cause.BadNumber }
{}

/// A pair of a master with one round and a backup with two has four rounds: one is inserted.
pub fn rounds_of_a_pair()
    ensures { rounds_due ((pair_task (1 ∷ []) (record { local = record { number = 0 }; rounds = record { moment = 0; lines = [] } ∷ [] }) (record { local = record { number = 0 }; rounds = record { moment = 0; lines = [] } ∷ record { moment = 9; lines = [] } ∷ [] })).runs []) ≡ 4 }
{}
