//! The law of printed scripts. A function without a body carries it.
ghost use Rattle.std.specs.Prelude.{◌≡◌, ℕ, List, Ok};
ghost use Rattle.lvs_types.specs.declared.script.Script.{Script};
ghost use Rattle.lvs_model.specs.Scripts.{script_of};
ghost use Rattle.lvs_tidy.specs.ScriptTexts.{script_text};

/// The text of a script that was read, from whatever text, is read as the same script.
pub fn printed_scripts_are_read_again()
    ensures { (given : List ℕ) (script : Script) → script_of given ≡ Ok script → script_of (script_text script) ≡ Ok script }
{}
