//! What the words of the program ask for.
use crate::{Addr, Bytes};

/// A command of the program with its numbers.
#[derive(Debug, PartialEq, Drop)]
pub enum ProgramCommand {
    /// `serial`: a script in one order, on one thread.
    Serial,
    /// `run WORKERS BUCKETS`: a script with threads.
    Run {
        /// 1 to 16.
        workers: u32,
        /// 1 to 256.
        buckets: u32,
    },
    /// `check`: whether a report is legal for a script.
    Check,
    /// `demo N`: the demonstration's script of so many clients, with threads.
    Demo {
        /// 1 to 100,000.
        clients: u32,
    },
    /// `capture NET BITS STEP`: a script, and then a recorded capture.
    Capture {
        /// The network of the real servers: a frame from it is an outgoing packet.
        net: Addr,
        /// How many leading bits of `net` count, 0 to 32.
        bits: u8,
        /// How many seconds of the capture make a round, 1 to 86,400.
        step: u32,
    },
    /// `pair COUNTS`: a master and a backup.
    Pair {
        /// How often each message arrives, 0 to 9 each, 1 to 64 of them; the last one stands for all later messages.
        counts: Bytes,
    },
}
