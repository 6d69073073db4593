//! How many items a line stands for.
ghost use Rattle.std.specs.Prelude.{◌≡◌, length, IfOk};
ghost use Rattle.lvs_model.specs.MessageReading.{read_sync};
ghost use Rattle.lvs_model.specs.Plans.{items_of_message, items_of_line};

use lvs_sync_codec::{MessageRefused, read_message};
use lvs_types::{Bytes, NoMemory, ScriptLine};
use std::alloc::Global;

/// A sync message: its records, or 1 where it can't be read.
fn count_message(alloc: Global, bytes: &Bytes) -> Result<usize, NoMemory>
    ensures { IfOk result (λ count. count ≡ length (items_of_message (read_sync bytes.now))) }
{
    match read_message(alloc, bytes.as_slice()) {
        Ok(message) => Ok(message.items.as_slice().len()),
        Err(MessageRefused::Bad(_)) => Ok(1),
        Err(MessageRefused::NoMemory) => Err(NoMemory),
    }
}

/// How many items a line stands for: of a sync message its records, or 1 where it can't be read, and
/// none of a listing (this project's profile).
pub fn count_items(alloc: Global, line: &ScriptLine) -> Result<usize, NoMemory>
    ensures { IfOk result (λ count. count ≡ length (items_of_line line.now)) }
{
    match line {
        ScriptLine::Incoming { .. } => Ok(1),
        ScriptLine::Outgoing(_) => Ok(1),
        ScriptLine::Edit(_) => Ok(1),
        ScriptLine::Set(_) => Ok(1),
        ScriptLine::Sync(bytes) => count_message(alloc, bytes),
        ScriptLine::Show(_) => Ok(0),
    }
}
