//! The words behind the first word of a line.
ghost use Rattle.std.specs.Prelude.{◌≡◌, IfOk, IfErr, Ok, Err};
ghost use Rattle.lvs_types.specs.declared.script.ScriptCause.{ScriptCause};
ghost use Rattle.lvs_types.specs.declared.script.ScriptCause.TheVariants as cause;
ghost use Rattle.lvs_model.specs.Decimals.{addr_of};
ghost use Rattle.lvs_model.specs.Scripts.{or_cause, bytes_of, no_words, one_word, two_words, number_given};
ghost use Rattle.lvs_lines.specs.Texts.{texts};

use crate::stop::Stop;
use hex::FromHexError;
use lvs_admin::{read_addr, read_number};
use lvs_types::{Addr, Bytes, ScriptCause};
use std::alloc::Global;

/// No word.
pub(crate) fn no_words(words: &[&[u8]]) -> Result<(), ScriptCause>
    ensures { result ≡ no_words (texts words.now) }
{
    match words {
        [] => Ok(()),
        [_, ..] => Err(ScriptCause::WordCount),
    }
}

/// Exactly one word.
pub(crate) fn one_word<'a>(words: &[&'a [u8]]) -> Result<&'a [u8], ScriptCause>
    ensures ok { IfOk result (λ word. one_word (texts words.now) ≡ Ok word.now) }
    ensures err { IfErr result (λ why. one_word (texts words.now) ≡ Err why) }
{
    match words {
        [word] => Ok(word),
        _ => Err(ScriptCause::WordCount),
    }
}

/// Exactly two words.
pub(crate) fn two_words<'a>(words: &[&'a [u8]]) -> Result<(&'a [u8], &'a [u8]), ScriptCause>
    ensures ok { IfOk result (λ both. two_words (texts words.now) ≡ Ok (both.0.now, both.1.now)) }
    ensures err { IfErr result (λ why. two_words (texts words.now) ≡ Err why) }
{
    match words {
        [first, second] => Ok((first, second)),
        _ => Err(ScriptCause::WordCount),
    }
}

/// SECONDS and MARK: 1 to 10 digits, below 2^32.
pub(crate) fn number(word: &[u8]) -> Result<u32, ScriptCause>
    ensures { result ≡ number_given word.now }
{
    read_number(10, u32::MAX, word).ok_or(ScriptCause::BadNumber)
}

/// ADDR.
pub(crate) fn addr(word: &[u8]) -> Result<Addr, ScriptCause>
    ensures { result ≡ or_cause cause.BadAddress (addr_of word.now) }
{
    read_addr(word).ok_or(ScriptCause::BadAddress)
}

/// HEX: an even number of hexadecimal digits of either case, at least two.
pub(crate) fn bytes(alloc: Global, word: &[u8]) -> Result<Bytes, Stop>
    ensures ok { IfOk result (λ bytes. bytes_of word.now ≡ Ok bytes) }
    ensures refused { (why : ScriptCause) → result ≡ Err (Stop.Refused why) → bytes_of word.now ≡ Err why }
{
    if word.is_empty() {
        return Err(Stop::Refused(ScriptCause::BadHex));
    }
    match hex::decode(alloc, word) {
        Ok(bytes) => Ok(Bytes::from_vec(bytes)),
        Err(FromHexError::OutOfMemory) => Err(Stop::NoMemory),
        Err(_) => Err(Stop::Refused(ScriptCause::BadHex)),
    }
}
