//! A due list: timers by deadline and then by id.
ghost use Rattle.std.specs.Prelude.{◌≡◌, ◌<◌, ◌≤◌, ◌+◌, ◌^◌, [], ◌++◌, length, true, count_by, None, OnOk, OnErr, IfErr};
ghost use Rattle.std.specs.List.{filter, find, AllByRecursion};
ghost use Rattle.lvs_model.specs.Lists.{without};
ghost use Rattle.lvs_timer.specs.declared.timer.Timer.{Timer};
ghost use Rattle.lvs_timer.specs.Timers.{is_due, has_id, ids_of};
ghost use Rattle.lvs_timer.specs.DueLists.{IsEntered, IsDueIn};

use crate::timer::Timer;
use lvs_types::{NoMemory, Steps};
use std::alloc::Global;
use std::collections::BTreeSet;
use std::marker::Model;
use std::sync::ledger::Ledger;

/// Timers by deadline and then by id, so that a sweep looks at the due ones and at one more.
#[derive(Debug, Drop)]
pub(crate) struct DueList {
    timers: BTreeSet<Timer>,
}

impl Model for DueList {
    ghost use Rattle.std.specs.Prelude.{List};
    ghost use Rattle.lvs_timer.specs.declared.timer.Timer.{Timer};

    ghost Value = { List Timer };

    ghost view = { λ d. d.timers.keys };
}

impl DueList {
    pub(crate) fn new(alloc: Global) -> DueList
        ensures { result ≡ [] }
    {
        DueList {
            timers: BTreeSet::new(alloc),
        }
    }

    /// Puts in a timer with a new id.
    pub(crate) fn put(&mut self, timer: Timer) -> Result<(), NoMemory>
        requires new { find (has_id timer.id) self.old ≡ None }
        ensures ok { OnOk result (IsEntered timer self.old self.new) }
        ensures err { OnErr result (self.new ≡ self.old) }
    {
        self.timers.insert(timer)?;
        Ok(())
    }

    /// Takes out the timer of an id, if it is there; then it is this one.
    pub(crate) fn take(&mut self, timer: &Timer)
        requires same { AllByRecursion (λ (t : Timer). has_id timer.now.id t ≡ true → t ≡ timer.now) self.old }
        requires once { count_by (has_id timer.now.id) self.old ≤ 1 }
        ensures { self.new ≡ without (has_id timer.now.id) self.old }
    {
        self.timers.remove(timer);
    }

    /// A due timer, if there is one: the first.
    pub(crate) fn first_due(&self, now: u64) -> Option<Timer>
        ensures { IsDueIn now self.now result }
    {
        let first = self.timers.first()?;
        if first.is_due(now) {
            Some(*first)
        } else {
            None
        }
    }

    /// Appends the ids of the due timers. A step is one timer looked at: each due one, and the
    /// first that isn't.
    pub(crate) fn list_due<L: Ledger>(
        &self,
        now: u64,
        ids: &mut Vec<u64>,
        steps: &mut Steps<L>,
    ) -> Result<(), NoMemory>
        requires { steps.old < 2 ^ 62 }
        ensures ok { OnOk result (ids.new.items ≡ ids.old.items ++ ids_of (filter (is_due now) self.now)) }
        ensures steps { steps.new ≤ steps.old + count_by (is_due now) self.now + 1 }
        ensures counted { OnOk result (steps.old + count_by (is_due now) self.now ≤ steps.new) }
        ensures bounded { steps.new < 2 ^ 62 + 2 ^ 63 }
    {
        for timer in &self.timers {
            steps.tick();
            if !timer.is_due(now) {
                return Ok(());
            }
            ids.push(timer.id)?;
        }
        Ok(())
    }
}
