//! The program's words.
ghost use Rattle.std.specs.Prelude.{◌≡◌, ◌≤◌, ◌<◌, map, IfOk, IfSome, string_bytes};
ghost use Rattle.lvs_model.specs.Decimals.{addr_of, number_of, number_between};
ghost use Rattle.lvs_model.specs.ProgramWords.{word_at, whole_at, capture_of, run_of, demo_of};
ghost use Rattle.lvs_run.specs.Words.{asked_of, IsAsked, called_of, IsCalled};

use lvs_admin::{read_addr, read_number};
use lvs_types::{Addr, ProgramCommand};

/// The greatest number of seconds that make a round.
const MAX_STEP: u32 = 86_400;

/// The greatest number of workers.
const MAX_WORKERS: u32 = 16;

/// The greatest number of buckets.
const MAX_BUCKETS: u32 = 256;

/// The greatest number of clients of a demonstration.
const MAX_CLIENTS: u32 = 100_000;

/// The command, where there are so many words; the first word more is refused.
fn whole(count: usize, words: &[String], command: ProgramCommand) -> Result<ProgramCommand, usize>
    ensures { result ≡ whole_at count (map string_bytes words.now) command }
{
    if words.len() <= count {
        Ok(command)
    } else {
        Err(count)
    }
}

/// How many bits of an address count.
fn read_bits(word: &[u8]) -> Option<u8>
    ensures value { result ≡ number_of 10 32 word.now }
    ensures small { IfSome result (λ bits. bits ≤ 32) }
{
    let bits = read_number(10, 32, word)?;
    if bits <= 32 { Some(bits as u8) } else { None }
}

/// A number from 1 up to a limit.
fn read_positive(limit: u32, word: &[u8]) -> Option<u32>
    ensures value { result ≡ number_between 1 limit word.now }
    ensures some { IfSome result (λ n. 1 ≤ n) }
    ensures few { IfSome result (λ n. n ≤ limit) }
{
    let number = read_number(10, limit, word)?;
    if number >= 1 && number <= limit {
        Some(number)
    } else {
        None
    }
}

fn net_at(at: usize, words: &[String]) -> Result<Addr, usize>
    ensures { result ≡ word_at addr_of at (map string_bytes words.now) }
{
    let Some(word) = words.get(at) else {
        return Err(at);
    };
    match read_addr(word.as_bytes()) {
        Some(net) => Ok(net),
        None => Err(at),
    }
}

fn bits_at(at: usize, words: &[String]) -> Result<u8, usize>
    ensures value { result ≡ word_at (number_of 10 32) at (map string_bytes words.now) }
    ensures small { IfOk result (λ bits. bits ≤ 32) }
{
    let Some(word) = words.get(at) else {
        return Err(at);
    };
    match read_bits(word.as_bytes()) {
        Some(bits) => Ok(bits),
        None => Err(at),
    }
}

fn positive_at(limit: u32, at: usize, words: &[String]) -> Result<u32, usize>
    ensures value { result ≡ word_at (number_between 1 limit) at (map string_bytes words.now) }
    ensures some { IfOk result (λ n. 1 ≤ n) }
    ensures few { IfOk result (λ n. n ≤ limit) }
{
    let Some(word) = words.get(at) else {
        return Err(at);
    };
    match read_positive(limit, word.as_bytes()) {
        Some(number) => Ok(number),
        None => Err(at),
    }
}

/// `capture NET BITS STEP`.
fn capture(words: &[String]) -> Result<ProgramCommand, usize>
    ensures value { result ≡ capture_of (map string_bytes words.now) }
    ensures asked { IfOk result IsAsked }
{
    let net = net_at(1, words)?;
    let bits = bits_at(2, words)?;
    let step = positive_at(MAX_STEP, 3, words)?;
    whole(4, words, ProgramCommand::Capture { net, bits, step })
}

/// `run WORKERS BUCKETS`.
fn run(words: &[String]) -> Result<ProgramCommand, usize>
    ensures value { result ≡ run_of (map string_bytes words.now) }
    ensures called { IfOk result IsCalled }
{
    let workers = positive_at(MAX_WORKERS, 1, words)?;
    let buckets = positive_at(MAX_BUCKETS, 2, words)?;
    whole(3, words, ProgramCommand::Run { workers, buckets })
}

/// `demo N`.
fn demo(words: &[String]) -> Result<ProgramCommand, usize>
    ensures value { result ≡ demo_of (map string_bytes words.now) }
    ensures called { IfOk result IsCalled }
{
    let clients = positive_at(MAX_CLIENTS, 1, words)?;
    whole(2, words, ProgramCommand::Demo { clients })
}

/// What the words ask one thread for, or the number of the first one that is refused; a word that is
/// missing has the number of words.
pub(crate) fn asked(words: &[String]) -> Result<ProgramCommand, usize>
    ensures value { result ≡ asked_of (map string_bytes words.now) }
    ensures asked { IfOk result IsAsked }
{
    let [name, ..] = words else {
        return Err(0);
    };
    if name.as_str() == "serial" {
        whole(1, words, ProgramCommand::Serial)
    } else if name.as_str() == "check" {
        whole(1, words, ProgramCommand::Check)
    } else if name.as_str() == "capture" {
        capture(words)
    } else {
        Err(0)
    }
}

/// What the words ask for, one thread or many, or the number of the first one that is refused; a word
/// that is missing has the number of words.
pub(crate) fn called(words: &[String]) -> Result<ProgramCommand, usize>
    ensures value { result ≡ called_of (map string_bytes words.now) }
    ensures called { IfOk result IsCalled }
{
    let [name, ..] = words else {
        return Err(0);
    };
    if name.as_str() == "run" {
        run(words)
    } else if name.as_str() == "demo" {
        demo(words)
    } else {
        asked(words)
    }
}
