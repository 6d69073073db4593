//! The moment, the settings, the sync daemons and the next ids of the desk.
ghost use Rattle.std.specs.Prelude.{◌≡◌};
ghost use Rattle.lvs_board.specs.Desks.{state_of, IsSound};

use crate::desk::Desk;
use lvs_rules::Whole;
use lvs_types::{Addr, Daemons, Settings};

impl Desk {
    /// The present moment, in seconds.
    pub(crate) fn moment<W: Whole>(&self) -> u64
        ensures { result ≡ (state_of W.whole self.now).now }
    {
        self.moment
    }

    /// The clock shows this moment, in seconds.
    pub(crate) fn set_moment<W: Whole>(&mut self, moment: u64)
        requires sound { IsSound W.whole self.old }
        ensures state { state_of W.whole self.new ≡ record (state_of W.whole self.old) { now = moment } }
        ensures sound { IsSound W.whole self.new }
        ensures rest { self.new ≡ record self.old { moment = moment } }
    {
        self.moment = moment;
    }

    /// The address at which tunnels begin.
    pub(crate) fn local<W: Whole>(&self) -> Addr
        ensures { result ≡ (state_of W.whole self.now).local }
    {
        self.local
    }

    /// The sysctls and timeouts.
    pub(crate) fn settings<W: Whole>(&self) -> &Settings
        ensures { result.now ≡ (state_of W.whole self.now).settings }
    {
        &self.settings
    }

    /// These sysctls and timeouts hold from now on.
    pub(crate) fn set_settings<W: Whole>(&mut self, settings: Settings)
        requires sound { IsSound W.whole self.old }
        ensures state { state_of W.whole self.new ≡ record (state_of W.whole self.old) { settings = settings } }
        ensures sound { IsSound W.whole self.new }
        ensures rest { self.new ≡ record self.old { settings = settings } }
    {
        self.settings = settings;
    }

    /// The sync daemons that run.
    pub(crate) fn daemons<W: Whole>(&self) -> Daemons
        ensures { result ≡ (state_of W.whole self.now).daemons }
    {
        self.daemons
    }

    /// These sync daemons run from now on.
    pub(crate) fn set_daemons<W: Whole>(&mut self, daemons: Daemons)
        requires sound { IsSound W.whole self.old }
        ensures state { state_of W.whole self.new ≡ record (state_of W.whole self.old) { daemons = daemons } }
        ensures sound { IsSound W.whole self.new }
        ensures rest { self.new ≡ record self.old { daemons = daemons } }
    {
        self.daemons = daemons;
    }

    /// The id of the next new entry.
    pub(crate) fn next_entry<W: Whole>(&self) -> u64
        ensures { result ≡ (state_of W.whole self.now).next_entry }
    {
        self.next_entry
    }

    /// The id of the next new template.
    pub(crate) fn next_template<W: Whole>(&self) -> u64
        ensures { result ≡ (state_of W.whole self.now).next_template }
    {
        self.next_template
    }
}
