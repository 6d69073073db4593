//! A writer of std as a sink.
ghost use Rattle.std.specs.Prelude.{◌≡◌, ◌<◌, length, take, IfOk, IfErr};
ghost use Rattle.std.specs.Io.{WritesAtMost};
ghost use Rattle.std.specs.Io.KnownBytes.{Appends, WriteAppends};
ghost use Rattle.lvs_outside.specs.Faults.{HasCause, AppendsPrefix};
ghost use Rattle.lvs_outside.specs.Streams.{IsPassedOn, Holds};

use crate::Sink;
use lvs_types::Failed;
use std::io::Write;
use std::marker::Model;
use std::snapshot::Snapshot;

/// A sink over a writer of std, which it flushes after each write. A failed write, a failed flush
/// and a write that takes nothing are faults.
///
/// After its first fault it takes nothing more: behind a flush that failed the writer holds bytes
/// that no call has acknowledged, and nothing may follow them.
///
/// A contract sees the bytes that were acknowledged, those that the writer was handed, where it
/// tells them, and how often the sink has failed. Before the first fault the two are the same.
#[derive(Drop)]
pub struct WriteSink<W: Write> {
    inner: W,
    // The writer at the last write that was acknowledged. It has no bytes.
    acknowledged: Snapshot<W>,
    faults: u64,
}

impl<W: Write> Model for WriteSink<W> {
    ghost use Rattle.lvs_outside.specs.Streams.{WriteSeen, Holds};

    ghost Value = { WriteSeen };

    ghost view = { λ s. record { written = W.contents s.acknowledged.value; handed = W.contents s.inner; faults = s.faults } };

    ghost invariant = { λ s. Holds (W.contents s.acknowledged.value) (W.contents s.inner) s.faults };
}

impl<W: Write> WriteSink<W> {
    /// A sink to this writer, with what the writer holds already. It takes no memory.
    pub fn new(inner: W) -> WriteSink<W>
        ensures { result ≡ record { written = W.contents inner; handed = W.contents inner; faults = 0 } }
    {
        WriteSink {
            acknowledged: Snapshot::of(&inner),
            inner,
            faults: 0,
        }
    }

    /// How often it has failed.
    pub fn faults(&self) -> u64
        ensures count { result ≡ self.now.faults }
        ensures holds { Holds self.now.written self.now.handed self.now.faults }
    {
        self.faults
    }

    /// The writer, as it is. Before the first fault it holds exactly what was acknowledged, and
    /// after it maybe more.
    pub fn into_inner(self) -> W
        ensures handed { W.contents result ≡ self.handed }
        ensures holds { Holds self.written (W.contents result) self.faults }
    {
        self.inner
    }
}

/// Hands a prefix of the bytes to the writer, at least one of a piece that isn't empty, and has it
/// flushed. After a failure the writer may hold a prefix of them.
fn pass_on<W: Write>(writer: &mut W, bytes: &[u8]) -> Result<usize, Failed>
    ensures bound { WritesAtMost result bytes.now }
    ensures some { IfOk result (λ n. 0 < length bytes.now → 0 < n) }
    ensures passed { IfOk result (λ n. Appends (W.contents writer.old) (W.contents writer.new) (take n bytes.now)) }
    ensures prefix { IfErr result (λ _. AppendsPrefix (W.contents writer.old) (W.contents writer.new) bytes.now) }
{
    let Ok(count) = writer.write(bytes) else {
        return Err(Failed);
    };
    if count == 0 && !bytes.is_empty() {
        return Err(Failed);
    }
    match writer.flush() {
        Ok(()) => Ok(count),
        Err(_) => Err(Failed),
    }
}

impl<W: Write> Sink for WriteSink<W> {
    ghost written = { λ s. s.written };

    ghost faults = { λ s. s.faults };

    /// Fails at each call after the first fault, and then hands the writer nothing.
    fn write(&mut self, bytes: &[u8]) -> Result<usize, Failed>
        ensures bound { WritesAtMost result bytes.now }
        ensures some { IfOk result (λ n. 0 < length bytes.now → 0 < n) }
        ensures bytes { WriteAppends self.old.written self.new.written result bytes.now }
        ensures cause { HasCause self.old.faults self.new.faults result }
        ensures answer { IsPassedOn self.old self.new bytes.now result }
    {
        if self.faults == 0 {
            if let Ok(count) = pass_on(&mut self.inner, bytes) {
                self.acknowledged = Snapshot::of(&self.inner);
                return Ok(count);
            }
        }
        self.faults = self.faults.saturating_add(1);
        Err(Failed)
    }
}
