//! The input, read to its end before anything else.
ghost use Rattle.std.specs.Prelude.{◌≡◌, ◌≢◌, ◌≤◌, ◌+◌, ℕ, List, length, IfOk, IfErr};
ghost use Rattle.std.specs.Io.KnownBytes.{Consumes, IsAtEnd};
ghost use Rattle.lvs_types.specs.Limits.{max_input};
ghost use Rattle.lvs_outside.specs.Faults.{Rose};
ghost use Rattle.lvs_tidy_run.specs.Made.{IsUnread};

use lvs_outside::{ReadStop, Source, read_all};
use lvs_types::Status;
use std::alloc::Global;

/// The whole input, or the status of one that wasn't read to its end.
pub(crate) fn read_input<S: Source>(alloc: Global, source: &mut S) -> Result<Vec<u8>, Status>
    ensures whole { IfOk result (λ bytes. Consumes (S.left source.old) (S.left source.new) bytes.items) }
    ensures end { IfOk result (λ bytes. IsAtEnd (S.left source.new)) }
    ensures fits { IfOk result (λ bytes. length bytes.items ≤ max_input) }
    ensures fault { result ≡ Err Status.ReadFault → Rose (S.faults source.old) (S.faults source.new) }
    ensures kept { result ≢ Err Status.ReadFault → S.faults source.new ≡ S.faults source.old }
    ensures too_long { result ≡ Err Status.ScriptTooLong → (bytes : List ℕ) × (length bytes ≡ max_input + 1) × Consumes (S.left source.old) (S.left source.new) bytes }
    ensures short { result ≢ Err Status.ScriptTooLong → result ≢ Err Status.NoMemory → (bytes : List ℕ) × (length bytes ≤ max_input) × Consumes (S.left source.old) (S.left source.new) bytes }
    ensures limit { (bytes : List ℕ) × (length bytes ≤ max_input + 1) × Consumes (S.left source.old) (S.left source.new) bytes }
    ensures unread { IfErr result IsUnread }
{
    match read_all(alloc, source) {
        Ok(bytes) => Ok(bytes),
        Err(ReadStop::Fault) => Err(Status::ReadFault),
        Err(ReadStop::TooLong) => Err(Status::ScriptTooLong),
        Err(ReadStop::NoMemory) => Err(Status::NoMemory),
    }
}
