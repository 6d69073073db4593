//! What a line of a round means.
ghost use Rattle.std.specs.Prelude.{◌≡◌, IfOk, Ok, Err};
ghost use Rattle.lvs_types.specs.declared.script.ScriptCause.{ScriptCause};
ghost use Rattle.lvs_model.specs.AdminLines.{line_of_words};
ghost use Rattle.lvs_model.specs.SysctlWords.{setting_of_words};
ghost use Rattle.lvs_model.specs.Scripts.{line_of_admin, line_of_setting, listing_line, side_of_word, icmp_shown, icmp_line, round_line};
ghost use Rattle.lvs_lines.specs.Texts.{texts};

use crate::stop::Stop;
use crate::values::{bytes, no_words, number, one_word, two_words};
use lvs_admin::{WordsRefused, read_setting_slices, read_word_slices};
use lvs_model::script::LineName;
use lvs_types::{Bytes, Line, ScriptCause, ScriptLine, Shown, Side};
use std::alloc::Global;

/// `ipvs WORDS`.
fn read_admin(alloc: Global, words: &[&[u8]]) -> Result<ScriptLine, Stop>
    ensures ok { IfOk result (λ line. line_of_admin (line_of_words (texts words.now)) ≡ Ok line) }
    ensures refused { (why : ScriptCause) → result ≡ Err (Stop.Refused why) → line_of_admin (line_of_words (texts words.now)) ≡ Err why }
{
    match read_word_slices(alloc, words) {
        Ok(Line::Edit(command)) => Ok(ScriptLine::Edit(command)),
        Ok(Line::Show(shown)) => Ok(ScriptLine::Show(shown)),
        Err(WordsRefused::Refused { at, cause }) => {
            Err(Stop::Refused(ScriptCause::BadWords { at, cause }))
        }
        Err(WordsRefused::NoMemory) => Err(Stop::NoMemory),
    }
}

/// `sysctl NAME VALUES`.
fn read_sysctl(words: &[&[u8]]) -> Result<ScriptLine, ScriptCause>
    ensures { result ≡ line_of_setting (setting_of_words (texts words.now)) }
{
    match read_setting_slices(words) {
        Ok(setting) => Ok(ScriptLine::Set(setting)),
        Err(_) => Err(ScriptCause::BadSetting),
    }
}

/// The side that an ICMP error comes from.
fn side_of_word(word: &[u8]) -> Option<Side>
    ensures { result ≡ side_of_word word.now }
{
    if word == b"in".as_slice() {
        Some(Side::Inward)
    } else if word == b"out".as_slice() {
        Some(Side::Outward)
    } else {
        None
    }
}

/// The answer to an ICMP error of these bytes, which stands among the listings.
fn icmp_shown(side: Side, bytes: Bytes) -> Shown
    ensures { result ≡ icmp_shown side bytes }
{
    match side {
        Side::Inward => Shown::IcmpIn(bytes),
        Side::Outward => Shown::IcmpOut(bytes),
    }
}

/// `in MARK HEX`.
fn read_incoming(alloc: Global, words: &[&[u8]]) -> Result<ScriptLine, Stop>
    ensures ok { IfOk result (λ line. round_line LineName.Incoming (texts words.now) ≡ Ok line) }
    ensures refused { (why : ScriptCause) → result ≡ Err (Stop.Refused why) → round_line LineName.Incoming (texts words.now) ≡ Err why }
{
    let (mark, hex) = two_words(words)?;
    let mark = number(mark)?;
    let bytes = bytes(alloc, hex)?;
    Ok(ScriptLine::Incoming { mark, bytes })
}

/// `out HEX`.
fn read_outgoing(alloc: Global, words: &[&[u8]]) -> Result<ScriptLine, Stop>
    ensures ok { IfOk result (λ line. round_line LineName.Outgoing (texts words.now) ≡ Ok line) }
    ensures refused { (why : ScriptCause) → result ≡ Err (Stop.Refused why) → round_line LineName.Outgoing (texts words.now) ≡ Err why }
{
    let hex = one_word(words)?;
    Ok(ScriptLine::Outgoing(bytes(alloc, hex)?))
}

/// `sync HEX`.
fn read_sync(alloc: Global, words: &[&[u8]]) -> Result<ScriptLine, Stop>
    ensures ok { IfOk result (λ line. round_line LineName.Sync (texts words.now) ≡ Ok line) }
    ensures refused { (why : ScriptCause) → result ≡ Err (Stop.Refused why) → round_line LineName.Sync (texts words.now) ≡ Err why }
{
    let hex = one_word(words)?;
    Ok(ScriptLine::Sync(bytes(alloc, hex)?))
}

/// A listing.
fn read_listing(words: &[&[u8]], shown: Shown) -> Result<ScriptLine, ScriptCause>
    ensures { result ≡ listing_line shown (texts words.now) }
{
    no_words(words)?;
    Ok(ScriptLine::Show(shown))
}

/// `icmp in HEX` or `icmp out HEX`: the answer to an ICMP error.
fn read_icmp(alloc: Global, words: &[&[u8]]) -> Result<ScriptLine, Stop>
    ensures ok { IfOk result (λ line. icmp_line (texts words.now) ≡ Ok line) }
    ensures refused { (why : ScriptCause) → result ≡ Err (Stop.Refused why) → icmp_line (texts words.now) ≡ Err why }
{
    let (side, hex) = two_words(words)?;
    let side = side_of_word(side).ok_or(ScriptCause::WordCount)?;
    let bytes = bytes(alloc, hex)?;
    Ok(ScriptLine::Show(icmp_shown(side, bytes)))
}

/// What a line of a round means, by its kind and the words behind the first.
pub(crate) fn round_line(alloc: Global, kind: LineName, words: &[&[u8]]) -> Result<ScriptLine, Stop>
    ensures ok { IfOk result (λ line. round_line kind (texts words.now) ≡ Ok line) }
    ensures refused { (why : ScriptCause) → result ≡ Err (Stop.Refused why) → round_line kind (texts words.now) ≡ Err why }
{
    match kind {
        LineName::Ipvs => read_admin(alloc, words),
        LineName::Sysctl => Ok(read_sysctl(words)?),
        LineName::Incoming => read_incoming(alloc, words),
        LineName::Outgoing => read_outgoing(alloc, words),
        LineName::Sync => read_sync(alloc, words),
        LineName::List => Ok(read_listing(words, Shown::List)?),
        LineName::Conns => Ok(read_listing(words, Shown::Conns)?),
        LineName::Save => Ok(read_listing(words, Shown::Save)?),
        LineName::Icmp => read_icmp(alloc, words),
        LineName::Local | LineName::At => Err(Stop::Refused(ScriptCause::UnknownLine)),
    }
}
