//! The law of the script that an input makes. A function without a body carries it.
ghost use Rattle.std.specs.Prelude.{◌≡◌, ℕ, List};
ghost use Rattle.lvs_types.specs.declared.program.ProgramCommand.TheVariants as program;
ghost use Rattle.lvs_model.specs.Tasks.{task_of};
ghost use Rattle.lvs_tidy_run.specs.declared.words.Asked.{Asked};
ghost use Rattle.lvs_tidy_run.specs.Made.{script_made, played};

/// `ipvsd capture` plays the script that the same input makes here, and refuses an input exactly where
/// it makes none, with the same status.
pub fn capture_plays_what_is_printed()
    ensures { (asked : Asked) (input : List ℕ) → task_of (program.Capture asked.net asked.bits asked.step) input ≡ played (script_made asked input) }
{}
