//! How many items a script has.
ghost use Rattle.std.specs.Prelude.{◌≡◌, ◌-◌, ◌^◌, length, flat_map, min, IfOk};
ghost use Rattle.lvs_model.specs.Plans.{items_of_line};
ghost use Rattle.lvs_model.specs.ScriptLimits.{items_in};

use lvs_script::count_items;
use lvs_types::{NoMemory, Round, ScriptLine};
use std::alloc::Global;

/// How many items lines have; the count stands still at the end of its type.
fn count_lines(alloc: Global, lines: &[ScriptLine]) -> Result<usize, NoMemory>
    ensures { IfOk result (λ count. count ≡ min (length (flat_map items_of_line lines.now)) (2 ^ 64 - 1)) }
{
    let mut count = 0usize;
    for line in lines {
        count = count.saturating_add(count_items(alloc, line)?);
    }
    Ok(count)
}

/// How many items the lines of rounds have; the count stands still at the end of its type.
pub(crate) fn count_rounds(alloc: Global, rounds: &[Round]) -> Result<usize, NoMemory>
    ensures { IfOk result (λ count. count ≡ min (items_in rounds.now) (2 ^ 64 - 1)) }
{
    let mut count = 0usize;
    for round in rounds {
        count = count.saturating_add(count_lines(alloc, round.lines.as_slice())?);
    }
    Ok(count)
}
