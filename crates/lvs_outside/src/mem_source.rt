//! A source in memory, for tests and for callers that have the bytes.
ghost use Rattle.std.specs.Prelude.{◌≡◌, ◌<◌, ◌≤◌, List, ℕ, [], min, drop, take, Some, length};
ghost use Rattle.std.specs.Io.{ReadsAtMost};
ghost use Rattle.std.specs.Io.KnownBytes.{ReadConsumes};
ghost use Rattle.lvs_outside.specs.Faults.{HasCause};
ghost use Rattle.lvs_outside.specs.Memory.{IsRead};

use crate::Source;
use lvs_types::Failed;
use std::marker::Model;

/// Gives its bytes in pieces, and fails at the calls that are named.
///
/// A contract sees what is left, the piece, the calls that fail, and how many calls and faults
/// there were.
#[derive(Drop)]
pub struct MemSource {
    bytes: Vec<u8>,
    at: usize,
    piece: usize,
    fails: Vec<u64>,
    calls: u64,
    faults: u64,
}

impl Model for MemSource {
    ghost use Rattle.std.specs.Prelude.{◌<◌, ◌≤◌, drop, length};
    ghost use Rattle.lvs_outside.specs.Memory.{SourceSeen};

    ghost Value = { SourceSeen };

    ghost view = { λ s. record { left = drop s.at s.bytes.items; piece = s.piece; fails = s.fails.items; calls = s.calls; faults = s.faults } };

    ghost invariant = { λ s. (s.at ≤ length s.bytes.items) × (0 < s.piece) };
}

impl MemSource {
    /// A source of these bytes. A call gives at most `piece` of them; the calls whose numbers,
    /// from 0, are in `fails` fail. It takes no memory.
    pub fn new(bytes: Vec<u8>, piece: usize, fails: Vec<u64>) -> MemSource
        requires { 0 < piece }
        ensures { result ≡ record { left = bytes.items; piece = piece; fails = fails.items; calls = 0; faults = 0 } }
    {
        MemSource {
            bytes,
            at: 0,
            piece,
            fails,
            calls: 0,
            faults: 0,
        }
    }
}

/// Copies as many bytes as the piece, the buffer and the rest allow.
fn give(rest: &[u8], piece: usize, buf: &mut [u8]) -> usize
    ensures count { result ≡ min piece (min (length buf.old) (length rest.now)) }
    ensures front { take result buf.new ≡ take result rest.now }
{
    let count = piece.min(buf.len().min(rest.len()));
    buf[..count].copy_from_slice(&rest[..count]);
    count
}

impl Source for MemSource {
    ghost left = { λ s. Some s.left };

    ghost faults = { λ s. s.faults };

    /// Fails exactly at the calls that are named.
    fn read(&mut self, buf: &mut [u8]) -> Result<usize, Failed>
        ensures bound { ReadsAtMost result buf.new }
        ensures bytes { ReadConsumes (Some self.old.left) (Some self.new.left) result buf.new }
        ensures cause { HasCause self.old.faults self.new.faults result }
        ensures answer { IsRead self.old self.new (length buf.old) result }
    {
        let call = self.calls;
        self.calls = call.saturating_add(1);
        if self.fails.contains(&call) {
            self.faults = self.faults.saturating_add(1);
            return Err(Failed);
        }
        let count = give(&self.bytes[self.at..], self.piece, buf);
        self.at += count;
        Ok(count)
    }
}
