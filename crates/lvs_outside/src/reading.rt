//! Reading a source to its end.
ghost use Rattle.std.specs.Prelude.{◌≡◌, ◌≢◌, ◌≤◌, ◌+◌, ℕ, List, IfOk, OnOk, length};
ghost use Rattle.std.specs.Io.KnownBytes.{Consumes, IsAtEnd};
ghost use Rattle.lvs_types.specs.Limits.{max_input};
ghost use Rattle.lvs_outside.specs.Faults.{Rose};

use crate::Source;
use lvs_types::NoMemory;
use std::alloc::Global;

/// How many bytes an input may have.
pub const MAX_INPUT: usize = 16_777_216;

/// How many bytes are asked for at once.
const PIECE: usize = 65_536;

/// Why an input wasn't read to its end.
#[derive(Clone, Copy, Debug, PartialEq, Eq)]
pub enum ReadStop {
    /// The source failed.
    Fault,
    /// It has more than `MAX_INPUT` bytes: one more was read.
    TooLong,
    /// There was no memory for the bytes.
    NoMemory,
}

/// A buffer of that size.
fn new_piece(alloc: Global, size: usize) -> Result<Vec<u8>, NoMemory>
    ensures { IfOk result (λ piece. length piece.items ≡ size) }
{
    Ok(vec![in alloc; 0u8; size]?)
}

/// All the bytes that are left. Each turn takes at least one byte or ends, and no more than
/// `MAX_INPUT + 1` are taken, also of a source without end.
pub fn read_all<S: Source>(alloc: Global, source: &mut S) -> Result<Vec<u8>, ReadStop>
    ensures whole { IfOk result (λ v. Consumes (S.left source.old) (S.left source.new) v.items) }
    ensures end { OnOk result (IsAtEnd (S.left source.new)) }
    ensures fits { IfOk result (λ v. length v.items ≤ max_input) }
    ensures fault { result ≡ Err ReadStop.Fault → Rose (S.faults source.old) (S.faults source.new) }
    ensures before { result ≡ Err ReadStop.Fault → (bytes : List ℕ) × (length bytes ≤ max_input) × Consumes (S.left source.old) (S.left source.new) bytes }
    ensures kept { result ≢ Err ReadStop.Fault → S.faults source.new ≡ S.faults source.old }
    ensures too_long { result ≡ Err ReadStop.TooLong → (bytes : List ℕ) × (length bytes ≡ max_input + 1) × Consumes (S.left source.old) (S.left source.new) bytes }
    ensures limit { (bytes : List ℕ) × (length bytes ≤ max_input + 1) × Consumes (S.left source.old) (S.left source.new) bytes }
{
    let mut bytes = Vec::new(alloc);
    let Ok(mut piece) = new_piece(alloc, PIECE) else {
        return Err(ReadStop::NoMemory);
    };
    let piece = piece.as_mut_slice();
    loop {
        let room = piece.len().min(MAX_INPUT + 1 - bytes.len());
        match source.read(&mut piece[..room]) {
            Err(_) => return Err(ReadStop::Fault),
            Ok(0) => return Ok(bytes),
            Ok(count) => {
                let Ok(()) = bytes.extend_from_slice(&piece[..count]) else {
                    return Err(ReadStop::NoMemory);
                };
                if bytes.len() > MAX_INPUT {
                    return Err(ReadStop::TooLong);
                }
            }
        }
    }
}
