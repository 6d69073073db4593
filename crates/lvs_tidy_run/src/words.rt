//! The words of the program.
ghost use Rattle.std.specs.Prelude.{◌≡◌, ◌≤◌, ◌<◌, map, IfOk, IfSome, string_bytes};
ghost use Rattle.lvs_model.specs.Decimals.{addr_of, number_of, number_between};
ghost use Rattle.lvs_model.specs.ProgramWords.{word_at};
ghost use Rattle.lvs_tidy_run.specs.Asked.{asked_of, CanBeAsked};

use lvs_admin::{read_addr, read_number};
use lvs_types::Addr;

/// The greatest number of seconds that make a round.
const MAX_STEP: u32 = 86_400;

/// What the program is asked for.
#[derive(Clone, Copy, Debug, PartialEq, Eq)]
pub struct Asked {
    /// The network of the servers.
    pub net: Addr,
    /// How many bits of it count, at most 32.
    pub bits: u8,
    /// The seconds of a round, 1 to 86,400.
    pub step: u32,
}

/// How many bits of an address count.
fn read_bits(word: &[u8]) -> Option<u8>
    ensures value { result ≡ number_of 10 32 word.now }
    ensures small { IfSome result (λ bits. bits ≤ 32) }
{
    let bits = read_number(10, 32, word)?;
    if bits <= 32 { Some(bits as u8) } else { None }
}

/// The seconds of a round.
fn read_step(word: &[u8]) -> Option<u32>
    ensures value { result ≡ number_between 1 86400 word.now }
    ensures some { IfSome result (λ step. 0 < step) }
{
    let step = read_number(10, MAX_STEP, word)?;
    if step >= 1 { Some(step) } else { None }
}

fn net_at(at: usize, words: &[String]) -> Result<Addr, usize>
    ensures { result ≡ word_at addr_of at (map string_bytes words.now) }
{
    let Some(word) = words.get(at) else {
        return Err(at);
    };
    match read_addr(word.as_bytes()) {
        Some(net) => Ok(net),
        None => Err(at),
    }
}

fn bits_at(at: usize, words: &[String]) -> Result<u8, usize>
    ensures value { result ≡ word_at (number_of 10 32) at (map string_bytes words.now) }
    ensures small { IfOk result (λ bits. bits ≤ 32) }
{
    let Some(word) = words.get(at) else {
        return Err(at);
    };
    match read_bits(word.as_bytes()) {
        Some(bits) => Ok(bits),
        None => Err(at),
    }
}

fn step_at(at: usize, words: &[String]) -> Result<u32, usize>
    ensures value { result ≡ word_at (number_between 1 86400) at (map string_bytes words.now) }
    ensures some { IfOk result (λ step. 0 < step) }
{
    let Some(word) = words.get(at) else {
        return Err(at);
    };
    match read_step(word.as_bytes()) {
        Some(step) => Ok(step),
        None => Err(at),
    }
}

/// What the words ask for, or the number of the first one that is refused; a word that is missing
/// has the number of words.
pub(crate) fn read_asked(words: &[String]) -> Result<Asked, usize>
    ensures value { result ≡ asked_of (map string_bytes words.now) }
    ensures asked { IfOk result CanBeAsked }
{
    let net = net_at(0, words)?;
    let bits = bits_at(1, words)?;
    let step = step_at(2, words)?;
    if words.len() <= 3 {
        Ok(Asked { net, bits, step })
    } else {
        Err(3)
    }
}
