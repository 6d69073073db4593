//! A sink in memory, for tests and for callers that want the bytes.
ghost use Rattle.std.specs.Prelude.{◌≡◌, ◌<◌, List, ℕ, [], length, Some, IfOk};
ghost use Rattle.std.specs.Io.{WritesAtMost};
ghost use Rattle.std.specs.Io.KnownBytes.{WriteAppends};
ghost use Rattle.lvs_outside.specs.Faults.{HasCause};
ghost use Rattle.lvs_outside.specs.Memory.{IsWritten};

use crate::Sink;
use lvs_types::{Failed, NoMemory};
use std::alloc::Global;
use std::marker::Model;

/// Takes bytes in pieces as far as it has room, and fails at the calls that are named.
///
/// A contract sees what it took, the room that is left, the piece, the calls that fail, and how
/// many calls and faults there were.
#[derive(Drop)]
pub struct MemSink {
    bytes: Vec<u8>,
    room: usize,
    piece: usize,
    fails: Vec<u64>,
    calls: u64,
    faults: u64,
}

impl Model for MemSink {
    ghost use Rattle.std.specs.Prelude.{◌<◌, ◌≤◌, ◌+◌, vec_len, vec_capacity};
    ghost use Rattle.lvs_outside.specs.Memory.{SinkSeen};

    ghost Value = { SinkSeen };

    ghost view = { λ s. record { written = s.bytes.items; room = s.room; piece = s.piece; fails = s.fails.items; calls = s.calls; faults = s.faults } };

    ghost invariant = { λ s. (vec_len s.bytes + s.room ≤ vec_capacity s.bytes) × (0 < s.piece) };
}

impl MemSink {
    /// A sink for `room` bytes, whose memory it takes. A call takes at most `piece` of them; the
    /// calls whose numbers, from 0, are in `fails` fail.
    pub fn new(
        alloc: Global,
        piece: usize,
        room: usize,
        fails: Vec<u64>,
    ) -> Result<MemSink, NoMemory>
        requires { 0 < piece }
        ensures { IfOk result (λ s. s ≡ record { written = []; room = room; piece = piece; fails = fails.items; calls = 0; faults = 0 }) }
    {
        Ok(MemSink {
            bytes: Vec::with_capacity(alloc, room)?,
            room,
            piece,
            fails,
            calls: 0,
            faults: 0,
        })
    }

    /// What was written.
    pub fn bytes(&self) -> &[u8]
        ensures { result.now ≡ self.now.written }
    {
        &self.bytes
    }
}

impl Sink for MemSink {
    ghost written = { λ s. Some s.written };

    ghost faults = { λ s. s.faults };

    /// Fails exactly at the calls that are named, and where bytes are handed in and no room is
    /// left. It takes no memory.
    fn write(&mut self, bytes: &[u8]) -> Result<usize, Failed>
        ensures bound { WritesAtMost result bytes.now }
        ensures some { IfOk result (λ n. 0 < length bytes.now → 0 < n) }
        ensures bytes { WriteAppends (Some self.old.written) (Some self.new.written) result bytes.now }
        ensures cause { HasCause self.old.faults self.new.faults result }
        ensures answer { IsWritten self.old self.new bytes.now result }
    {
        let call = self.calls;
        self.calls = call.saturating_add(1);
        if self.fails.contains(&call) || (self.room == 0 && !bytes.is_empty()) {
            self.faults = self.faults.saturating_add(1);
            return Err(Failed);
        }
        let count = self.piece.min(bytes.len().min(self.room));
        let Ok(()) = self.bytes.extend_from_slice(&bytes[..count]) else {
            // The memory was taken with the sink.
            unreachable!()
        };
        self.room -= count;
        Ok(count)
    }
}
