//! The exit status of the program.
ghost use Rattle.std.specs.Prelude.{◌≡◌};
ghost use Rattle.lvs_run.specs.ExitCodes.{exit_number};

use lvs_types::Status;

/// The exit status that tells the status, 0 for Finished (this project's profile).
pub fn exit_code(status: &Status) -> u8
    ensures { result ≡ exit_number status.now }
{
    match status {
        Status::Finished => 0,
        Status::ScriptRefused { .. } => 1,
        Status::WordsRefused { .. } => 2,
        Status::ReadFault => 3,
        Status::WriteFault => 4,
        Status::NoMemory => 5,
        Status::ScriptTooLong => 6,
        Status::Illegal(_) => 7,
        Status::CaptureRefused { .. } => 8,
    }
}
