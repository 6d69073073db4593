//! A reader of std as a source.
ghost use Rattle.std.specs.Prelude.{◌≡◌};

use crate::Source;
use lvs_types::Failed;
use std::io::Read;
use std::marker::Model;

/// A source over a reader of std. A failed read is a fault.
///
/// A contract sees what the reader has left, where it tells, and how often it has failed.
#[derive(Drop)]
pub struct ReadSource<R: Read> {
    inner: R,
    faults: u64,
}

impl<R: Read> Model for ReadSource<R> {
    ghost use Rattle.lvs_outside.specs.Streams.{ReadSeen};

    ghost Value = { ReadSeen };

    ghost view = { λ s. record { left = R.remaining s.inner; faults = s.faults } };
}

impl<R: Read> ReadSource<R> {
    /// A source of what the reader has left. It takes no memory.
    pub fn new(inner: R) -> ReadSource<R>
        ensures left { result.left ≡ R.remaining inner }
        ensures faults { result.faults ≡ 0 }
    {
        ReadSource { inner, faults: 0 }
    }

    /// The reader, as it is.
    pub fn into_inner(self) -> R
        ensures { R.remaining result ≡ self.left }
    {
        self.inner
    }
}

impl<R: Read> Source for ReadSource<R> {
    ghost left = { λ s. s.left };

    ghost faults = { λ s. s.faults };

    fn read(&mut self, buf: &mut [u8]) -> Result<usize, Failed> {
        match self.inner.read(buf) {
            Ok(count) => Ok(count),
            Err(_) => {
                self.faults = self.faults.saturating_add(1);
                Err(Failed)
            }
        }
    }
}
