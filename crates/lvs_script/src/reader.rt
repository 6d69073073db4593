//! Reading the lines of a script one after the other.
ghost use Rattle.std.specs.Prelude.{◌≡◌, length, [], None, OnOk, IfOk, Ok, Err};
ghost use Rattle.lvs_types.specs.declared.script.ScriptCause.{ScriptCause};
ghost use Rattle.lvs_model.specs.Scripts.{empty_script, rounds_read, checked_place, with_line, take_local, checked_round, take_at, take_round_line, take_kind, take_line_words, take_line, script_read};
ghost use Rattle.lvs_lines.specs.Texts.{texts};
ghost use Rattle.lvs_script.specs.Texts.{read_or_refused};

use crate::counting::count_items;
use crate::kinds::line_named;
use crate::round_lines::round_line;
use crate::stop::Stop;
use crate::values::{addr, number, one_word};
use lvs_lines::{is_readable, is_skipped, words_of};
use lvs_model::script::LineName;
use lvs_types::{Addr, Listed, NoMemory, Round, Script, ScriptCause, ScriptLine};
use std::alloc::Global;
use std::marker::Model;
use std::mem;

/// The greatest number of rounds.
const MAX_ROUNDS: usize = 4_096;

/// The greatest number of items, the clock's aside.
const MAX_ITEMS: usize = 1_048_576;

/// A reader of lines: what was read so far.
#[derive(Drop)]
pub(crate) struct ScriptReader {
    alloc: Global,
    local: Option<Addr>,
    closed: Vec<Round>,
    moment: Option<u64>,
    lines: Vec<ScriptLine>,
    items: usize,
}

impl Model for ScriptReader {
    ghost use Rattle.lvs_model.specs.Scripts.{ScriptRead};

    ghost Value = { ScriptRead };

    ghost view = { λ r. record { local = r.local; closed = r.closed.items; moment = r.moment; lines = r.lines.items; items = r.items } };
}

impl ScriptReader {
    /// Nothing was read.
    pub(crate) fn new(alloc: Global) -> ScriptReader
        ensures { result ≡ empty_script }
    {
        ScriptReader {
            alloc,
            local: None,
            closed: Vec::new(alloc),
            moment: None,
            lines: Vec::new(alloc),
            items: 0,
        }
    }

    /// Where a kind of line may stand.
    fn check_place(&self, kind: LineName) -> Result<(), ScriptCause>
        ensures { result ≡ checked_place kind self.now }
    {
        match kind {
            LineName::Local => {
                if self.local.is_some() || self.moment.is_some() {
                    Err(ScriptCause::LocalPlace)
                } else {
                    Ok(())
                }
            }
            LineName::At => Ok(()),
            _ => {
                if self.moment.is_some() {
                    Ok(())
                } else {
                    Err(ScriptCause::BeforeAt)
                }
            }
        }
    }

    /// `local ADDR`.
    fn take_local(&mut self, words: &[&[u8]]) -> Result<(), ScriptCause>
        ensures { read_or_refused result self.new ≡ take_local (texts words.now) self.old }
    {
        let word = one_word(words)?;
        self.local = Some(addr(word)?);
        Ok(())
    }

    /// How many rounds there are.
    fn count_rounds(&self) -> usize
        ensures { result ≡ length (rounds_read self.now) }
    {
        match self.moment {
            None => self.closed.len(),
            Some(_) => self.closed.len() + 1,
        }
    }

    /// A moment isn't less than the one before, and one more round is within the limit.
    fn check_round(&self, moment: u64) -> Result<(), ScriptCause>
        ensures { result ≡ checked_round moment self.now }
    {
        if moment < self.moment.unwrap_or(0) {
            Err(ScriptCause::TimeBack)
        } else if self.count_rounds() >= MAX_ROUNDS {
            Err(ScriptCause::TooManyRounds)
        } else {
            Ok(())
        }
    }

    /// Closes the round that is open.
    fn close_round(&mut self) -> Result<(), NoMemory>
        ensures { OnOk result (self.new ≡ record self.old { closed = rounds_read self.old; moment = None; lines = [] }) }
    {
        let lines = mem::replace(&mut self.lines, Vec::new(self.alloc));
        let moment = self.moment;
        self.moment = None;
        if let Some(moment) = moment {
            self.closed.push(Round {
                moment,
                lines: Listed::from_vec(lines),
            })?;
        }
        Ok(())
    }

    /// `at SECONDS`.
    fn take_at(&mut self, words: &[&[u8]]) -> Result<(), Stop>
        ensures ok { OnOk result (take_at (texts words.now) self.old ≡ Ok self.new) }
        ensures refused { (why : ScriptCause) → result ≡ Err (Stop.Refused why) → take_at (texts words.now) self.old ≡ Err why }
    {
        let word = one_word(words)?;
        let moment = u64::from(number(word)?);
        self.check_round(moment)?;
        self.close_round()?;
        self.moment = Some(moment);
        Ok(())
    }

    /// A line more in the round that is open.
    fn push_line(&mut self, line: ScriptLine) -> Result<(), Stop>
        ensures ok { OnOk result (with_line line self.old ≡ Ok self.new) }
        ensures refused { (why : ScriptCause) → result ≡ Err (Stop.Refused why) → with_line line self.old ≡ Err why }
    {
        let items = self.items.saturating_add(count_items(self.alloc, &line)?);
        if items > MAX_ITEMS {
            return Err(Stop::Refused(ScriptCause::TooManyItems));
        }
        self.lines.push(line)?;
        self.items = items;
        Ok(())
    }

    /// A line of a round.
    fn take_round_line(&mut self, kind: LineName, words: &[&[u8]]) -> Result<(), Stop>
        ensures ok { OnOk result (take_round_line kind (texts words.now) self.old ≡ Ok self.new) }
        ensures refused { (why : ScriptCause) → result ≡ Err (Stop.Refused why) → take_round_line kind (texts words.now) self.old ≡ Err why }
    {
        let line = round_line(self.alloc, kind, words)?;
        self.push_line(line)
    }

    /// A line, by its kind and the words behind the first.
    fn take_kind(&mut self, kind: LineName, words: &[&[u8]]) -> Result<(), Stop>
        ensures ok { OnOk result (take_kind kind (texts words.now) self.old ≡ Ok self.new) }
        ensures refused { (why : ScriptCause) → result ≡ Err (Stop.Refused why) → take_kind kind (texts words.now) self.old ≡ Err why }
    {
        match kind {
            LineName::Local => Ok(self.take_local(words)?),
            LineName::At => self.take_at(words),
            _ => self.take_round_line(kind, words),
        }
    }

    /// The words of a line that isn't skipped.
    fn take_line_words(&mut self, words: &[&[u8]]) -> Result<(), Stop>
        ensures ok { OnOk result (take_line_words (texts words.now) self.old ≡ Ok self.new) }
        ensures refused { (why : ScriptCause) → result ≡ Err (Stop.Refused why) → take_line_words (texts words.now) self.old ≡ Err why }
    {
        match words {
            [] => Ok(()),
            [first, rest @ ..] => {
                let kind = line_named(first).ok_or(ScriptCause::UnknownLine)?;
                self.check_place(kind)?;
                self.take_kind(kind, rest)
            }
        }
    }

    /// The next line.
    pub(crate) fn take_line(&mut self, line: &[u8]) -> Result<(), Stop>
        ensures ok { OnOk result (take_line line.now self.old ≡ Ok self.new) }
        ensures refused { (why : ScriptCause) → result ≡ Err (Stop.Refused why) → take_line line.now self.old ≡ Err why }
    {
        let words = words_of(self.alloc, line)?;
        if is_skipped(&words) {
            return Ok(());
        }
        if !is_readable(line) {
            return Err(Stop::Refused(ScriptCause::UnknownLine));
        }
        self.take_line_words(&words)
    }

    /// The script of all lines.
    pub(crate) fn finish(mut self) -> Result<Script, NoMemory>
        ensures { IfOk result (λ script. script ≡ script_read self) }
    {
        self.close_round()?;
        Ok(Script {
            local: self.local.unwrap_or(Addr { number: 0 }),
            rounds: Listed::from_vec(self.closed),
        })
    }
}
