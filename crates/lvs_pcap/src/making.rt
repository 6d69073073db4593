//! Rounds made of packets, one packet after the other.
ghost use Rattle.std.specs.Prelude.{◌≡◌, ◌≤◌, ◌<◌, ◌^◌, nat_lt, [], OnOk, IfOk, IfErr, Ok};
ghost use Rattle.std.specs.Bool.{OnFalse};
ghost use Rattle.lvs_types.specs.Limits.{max_rounds};
ghost use Rattle.lvs_pcap.specs.Making.{none_made, rounds_made, begins as spec_begins, with_moment, with_round, with_packet};
ghost use Rattle.lvs_pcap.specs.Reading.{IsRefusal};

use crate::refused::CaptureRefused;
use lvs_types::{CaptureCause, Listed, NoMemory, Round, ScriptLine};
use std::alloc::Global;
use std::marker::Model;
use std::mem;

/// The greatest number of rounds.
const MAX_ROUNDS: usize = 4_096;

/// The greatest number of items, the clock's aside.
const MAX_ITEMS: usize = 1_048_576;

/// Makes rounds of packets: what was made so far.
#[derive(Drop)]
pub(crate) struct RoundMaker {
    alloc: Global,
    closed: Vec<Round>,
    moment: Option<u64>,
    lines: Vec<ScriptLine>,
    rounds: usize,
    items: usize,
}

impl Model for RoundMaker {
    ghost use Rattle.lvs_pcap.specs.Making.{Made};

    ghost Value = { Made };

    ghost view = { λ m. record { closed = m.closed.items; moment = m.moment; lines = m.lines.items; rounds = m.rounds; items = m.items } };
}

impl RoundMaker {
    /// Nothing was made, behind so many rounds and items.
    pub(crate) fn new(alloc: Global, rounds: usize, items: usize) -> RoundMaker
        ensures { result ≡ none_made rounds items }
    {
        RoundMaker {
            alloc,
            closed: Vec::new(alloc),
            moment: None,
            lines: Vec::new(alloc),
            rounds,
            items,
        }
    }

    /// Whether a packet of this moment begins a round.
    fn begins(&self, moment: u64) -> bool
        ensures { result ≡ spec_begins moment self.now.moment }
    {
        match self.moment {
            None => true,
            Some(before) => before < moment,
        }
    }

    /// Closes the round that is open.
    fn close_round(&mut self) -> Result<(), NoMemory>
        ensures { OnOk result (self.new ≡ record self.old { closed = rounds_made self.old; moment = None; lines = [] }) }
    {
        let lines = mem::replace(&mut self.lines, Vec::new(self.alloc));
        let moment = self.moment;
        self.moment = None;
        if let Some(moment) = moment {
            self.closed.push(Round {
                moment,
                lines: Listed::from_vec(lines),
            })?;
        }
        Ok(())
    }

    /// Begins a round.
    fn begin_round(&mut self, moment: u64) -> Result<(), NoMemory>
        requires { self.old.rounds < 2 ^ 63 }
        ensures { OnOk result (self.new ≡ with_round moment self.old) }
    {
        self.close_round()?;
        self.moment = Some(moment);
        self.rounds += 1;
        Ok(())
    }

    /// Whether a packet of this moment makes the rounds too many.
    fn is_over(&self, moment: u64) -> bool
        ensures over { result ≡ nat_lt max_rounds (with_moment moment self.now).rounds }
        ensures few { OnFalse result (self.now.rounds ≤ 4096) }
    {
        if self.begins(moment) {
            self.rounds >= MAX_ROUNDS
        } else {
            self.rounds > MAX_ROUNDS
        }
    }

    /// Begins a round, where a packet of this moment does.
    fn move_to(&mut self, moment: u64) -> Result<(), NoMemory>
        requires { self.old.rounds ≤ 4096 }
        ensures { OnOk result (self.new ≡ with_moment moment self.old) }
    {
        if self.begins(moment) {
            self.begin_round(moment)?;
        }
        Ok(())
    }

    /// One more packet, of the record of that number.
    pub(crate) fn take_packet(
        &mut self,
        at: u64,
        moment: u64,
        line: ScriptLine,
    ) -> Result<(), CaptureRefused>
        ensures ok { OnOk result (with_packet at moment line self.old ≡ Ok self.new) }
        ensures refused { IfErr result (IsRefusal (with_packet at moment line self.old)) }
    {
        if self.is_over(moment) {
            return Err(refused(at, CaptureCause::TooManyRounds));
        }
        if self.items >= MAX_ITEMS {
            return Err(refused(at, CaptureCause::TooManyItems));
        }
        self.move_to(moment)?;
        self.lines.push(line)?;
        self.items += 1;
        Ok(())
    }

    /// All rounds.
    pub(crate) fn finish(mut self) -> Result<Vec<Round>, NoMemory>
        ensures { IfOk result (λ rounds. rounds.items ≡ rounds_made self) }
    {
        self.close_round()?;
        Ok(self.closed)
    }
}

/// A refusal at a record.
fn refused(at: u64, cause: CaptureCause) -> CaptureRefused
    ensures { result ≡ CaptureRefused.Refused at cause }
{
    CaptureRefused::Refused { at, cause }
}
