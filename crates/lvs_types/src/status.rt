//! How a run of the program ended.
use crate::{CaptureCause, ScriptCause, Verdict};

/// How a run ended. The number of each is the program's exit status.
#[derive(Debug, PartialEq, Drop)]
pub enum Status {
    /// 0: the source was read to its end, and all was written.
    Finished,
    /// 1: the first refused line of the script, from 1, and its cause.
    ScriptRefused { line: u64, cause: ScriptCause },
    /// 2: the number of the refused word, from 0, the program's name left out.
    WordsRefused { at: usize },
    /// 3: the source failed.
    ReadFault,
    /// 4: the sink failed.
    WriteFault,
    /// 5.
    NoMemory,
    /// 6: the input has more than 16,777,216 bytes.
    ScriptTooLong,
    /// 7: `check` found the report not legal.
    Illegal(Verdict),
    /// 8: the refused record of the capture (0 is the file header), and its cause.
    CaptureRefused { at: u64, cause: CaptureCause },
}
