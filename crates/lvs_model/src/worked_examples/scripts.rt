//! Worked examples: scripts, their plans, and what is read and told of them.
ghost use Rattle.std.specs.Prelude.{◌≡◌, [], ◌∷◌, ◌++◌, None, Some, Ok, Err, codes};
ghost use Rattle.lvs_types.specs.declared.book.Shown.TheVariants as shown;
ghost use Rattle.lvs_types.specs.declared.command.Command.TheVariants as command;
ghost use Rattle.lvs_types.specs.declared.item.Item.TheVariants as item;
ghost use Rattle.lvs_types.specs.declared.report.ReportLine.TheVariants as read;
ghost use Rattle.lvs_types.specs.declared.script.ScriptCause.TheVariants as cause;
ghost use Rattle.lvs_types.specs.declared.script.ScriptLine.TheVariants as line;
ghost use Rattle.lvs_types.specs.declared.script.WordsCause.TheVariants as words;
ghost use Rattle.lvs_types.specs.declared.settings.Setting.TheVariants as setting;
ghost use Rattle.lvs_types.specs.declared.status.Status.TheVariants as status;
ghost use Rattle.lvs_model.specs.ExampleItems.{syn, web_packet};
ghost use Rattle.lvs_model.specs.FaultLines.{fault_text};
ghost use Rattle.lvs_model.specs.Plans.{plan, serial_items};
ghost use Rattle.lvs_model.specs.ReportReading.{report_of};
ghost use Rattle.lvs_model.specs.Scripts.{script_of};

/// A script of one round, with a comment, blanks, and a carriage return.
pub fn a_script()
    ensures read { script_of (codes "# a comment" ++ 10 ∷ codes "local 10.0.0.254" ++ 13 ∷ 10 ∷ codes "  at 5" ++ 10 ∷ codes "sysctl sloppy_tcp 1" ++ 10 ∷ codes "list") ≡ Ok (record { local = record { number = 167772414 }; rounds = record { moment = 5; lines = line.Set (setting.SloppyTcp 1) ∷ line.Show shown.List ∷ [] } ∷ [] }) }
    ensures empty { script_of [] ≡ Ok (record { local = record { number = 0 }; rounds = [] }) }
    ensures unknown { script_of (codes "at 0" ++ 10 ∷ codes "connect" ++ 10 ∷ []) ≡ Err (record { line = 2; cause = cause.UnknownLine }) }
    ensures early { script_of (codes "list" ++ 10 ∷ codes "connect" ++ 10 ∷ []) ≡ Err (record { line = 1; cause = cause.BeforeAt }) }
    ensures back { script_of (codes "at 1" ++ 10 ∷ codes "at 1" ++ 10 ∷ codes "at 0" ++ 10 ∷ []) ≡ Err (record { line = 3; cause = cause.TimeBack }) }
{}

/// Two packets of two workers among four, an edit, and a listing.
pub fn a_plan()
    ensures lists { plan (record { moment = 5; lines = line.Incoming 0 (web_packet 40000 2) ∷ line.Edit command.Clear ∷ line.Incoming 0 (web_packet 40001 2) ∷ line.Show shown.Conns ∷ [] }) 4 2 ≡ record { moment = 5; buckets = 2; lists = (item.Sweep 0 ∷ item.Sweep 1 ∷ item.Reap ∷ item.SendSync ∷ []) ∷ (item.Edit command.Clear ∷ []) ∷ [] ∷ [] ∷ (syn 40000 ∷ []) ∷ [] ∷ (syn 40001 ∷ []) ∷ []; shown = shown.Conns ∷ [] } }
    ensures serial { serial_items (record { moment = 5; lines = line.Incoming 0 (web_packet 40000 2) ∷ line.Edit command.Clear ∷ line.Incoming 0 (web_packet 40001 2) ∷ line.Show shown.Conns ∷ [] }) ≡ record { actor = 0; number = 0; item = item.Sweep 0 } ∷ record { actor = 0; number = 1; item = item.Reap } ∷ record { actor = 3; number = 0; item = syn 40000 } ∷ record { actor = 1; number = 0; item = item.Edit command.Clear } ∷ record { actor = 3; number = 1; item = syn 40001 } ∷ record { actor = 0; number = 2; item = item.SendSync } ∷ [] }
{}

/// A report of one act and one listing; its faults are told by their lines.
pub fn a_report_is_read()
    ensures read { report_of (codes "round 0 at 5 workers 1 buckets 1" ++ 10 ∷ codes "2 1.0 ok" ++ 10 ∷ codes "list" ++ 10 ∷ codes "2 1.0 ok" ++ 10 ∷ codes "end" ++ 10 ∷ []) ≡ Ok (read.Head 0 5 1 1 ∷ read.Act 2 1 0 (codes "ok") ∷ read.Shown (record { kind = shown.List; text = codes "2 1.0 ok" ++ 10 ∷ [] }) ∷ []) }
    ensures nothing { report_of [] ≡ Ok [] }
    ensures leading_zero { report_of (codes "2 1.0 ok" ++ 10 ∷ codes "02 1.0 ok" ++ 10 ∷ []) ≡ Err 2 }
    ensures unterminated { report_of (codes "2 1.0 ok") ≡ Err 1 }
    ensures endless { report_of (codes "save" ++ 10 ∷ codes "-C" ++ 10 ∷ []) ≡ Err 3 }
    ensures no_reply { report_of (codes "2 1.0 " ++ 10 ∷ []) ≡ Err 1 }
{}

/// What standard error is told.
pub fn faults_are_told()
    ensures words { fault_text (status.ScriptRefused 2 (cause.BadWords 2 words.ZeroPort)) ≡ codes "ipvsd: script refused, line 2: BadWords 2 ZeroPort" }
    ensures line { fault_text (status.ScriptRefused 12 cause.TooManyRounds) ≡ codes "ipvsd: script refused, line 12: TooManyRounds" }
    ensures program { fault_text (status.WordsRefused 0) ≡ codes "ipvsd: words refused, word 0" }
    ensures none { fault_text status.Finished ≡ [] }
{}
