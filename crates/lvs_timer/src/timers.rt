//! The deadlines of one bucket's entries.
ghost use Rattle.std.specs.Prelude.{◌≡◌, ◌<◌, ◌≤◌, ◌+◌, ◌^◌, [], length, count_by, IfOk, OnOk, OnErr, IfSome, IfNone, None, Some, true};
ghost use Rattle.std.specs.List.{find, filter};
ghost use Rattle.lvs_model.specs.Lists.{without, insert_by};
ghost use Rattle.lvs_timer.specs.declared.timer.Timer.{Timer};
ghost use Rattle.lvs_timer.specs.Timers.{has_id, is_due, ids_of, AreListed};
ghost use Rattle.std.specs.List.Sorted.{IsStrictlyIncreasing};

use crate::due_list::DueList;
use crate::fresh::{FRESH, fresh_due, list_fresh, settle};
use crate::timer::Timer;
use lvs_types::{NoMemory, Steps};
use std::alloc::Global;
use std::marker::{Brand, Model};
use std::sync::ledger::{Blank, Ledger};

/// Ids with their deadlines, each id once. Contracts see them in order of id.
#[derive(Debug, Drop)]
pub struct Timers {
    due: DueList,
    /// The timers that were armed last. They have room of their own, since an ordered tree can't
    /// promise any, and go to the due list where room is made again.
    fresh: Vec<Timer>,
    /// For how many more there is room among the fresh ones.
    room: usize,
}

impl Model for Timers {
    ghost use Rattle.std.specs.Prelude.{◌++◌};
    ghost use Rattle.std.specs.Vec.{vec_capacity};
    ghost use Rattle.lvs_timer.specs.Seen.{TimersSeen};

    ghost Value = { TimersSeen };

    ghost use Rattle.lvs_timer.specs.DueLists.{in_order, IsStore};

    ghost view = { λ t. record { timers = in_order (t.due ++ t.fresh.items); spare = t.room } };

    ghost invariant = { λ t. IsStore t.due t.fresh.items (vec_capacity t.fresh) t.room };
}

impl Timers {
    /// No timers.
    pub fn new(alloc: Global) -> Result<Timers, NoMemory>
        ensures { IfOk result (λ t. t.timers ≡ []) }
    {
        Ok(Timers {
            due: DueList::new(alloc),
            fresh: Vec::with_capacity(alloc, FRESH)?,
            room: 0,
        })
    }

    /// Makes room for one more timer.
    pub fn reserve(&mut self) -> Result<(), NoMemory>
        ensures timers { self.new.timers ≡ self.old.timers }
        ensures ok { OnOk result (0 < self.new.spare) }
        ensures kept { self.old.spare ≤ self.new.spare }
        ensures err { OnErr result (self.new ≡ self.old) }
    {
        if self.room > 0 {
            return Ok(());
        }
        settle(&mut self.due, &mut self.fresh)?;
        self.room = FRESH;
        Ok(())
    }

    /// Arms an id that isn't armed.
    pub fn arm(&mut self, id: u64, deadline: u64)
        requires room { 0 < self.old.spare }
        requires new_id { find (has_id id) self.old.timers ≡ None }
        ensures timers { self.new.timers ≡ insert_by (λ (t : Timer). t.id) (record { id = id; deadline = deadline }) self.old.timers }
        ensures spare { self.new.spare + 1 ≡ self.old.spare }
    {
        self.fresh.push_reserved(Timer { deadline, id });
        self.room -= 1;
    }

    /// Disarms an id that is armed with this deadline.
    pub fn disarm(&mut self, id: u64, deadline: u64)
        requires armed { find (has_id id) self.old.timers ≡ Some (record { id = id; deadline = deadline }) }
        ensures timers { self.new.timers ≡ without (has_id id) self.old.timers }
        ensures spare { self.new.spare ≡ self.old.spare }
    {
        self.due.take(&Timer { deadline, id });
        self.fresh.retain(|t| t.id != id);
    }

    /// One of the due timers, where there is one: its deadline is at or before `now`, in seconds.
    pub fn next_due(&self, now: u64) -> Option<Timer>
        ensures due { IfSome result (λ timer. is_due now timer ≡ true) }
        ensures armed { IfSome result (λ timer. find (has_id timer.id) self.now.timers ≡ Some timer) }
        ensures none { IfNone result (filter (is_due now) self.now.timers ≡ []) }
    {
        match self.due.first_due(now) {
            Some(timer) => Some(timer),
            None => fresh_due(&self.fresh, now),
        }
    }

    /// The ids whose deadline is at or before `now`, in seconds, rising.
    pub fn due(&self, alloc: Global, now: u64) -> Result<Vec<u64>, NoMemory>
        ensures ids { IfOk result (λ ids. ids.items ≡ ids_of (filter (is_due now) self.now.timers)) }
        ensures rising { IfOk result (λ ids. IsStrictlyIncreasing ids.items) }
        ensures listed { AreListed self.now.timers }
    {
        self.due_from::<Brand>(alloc, now, Blank::new(1))
    }

    /// The due ids. A step is one armed id looked at: each due one at
    /// least, and at most 16 more.
    pub fn due_counted<L: Ledger>(
        &self,
        alloc: Global,
        now: u64,
        steps: &mut Steps<L>,
    ) -> Result<Vec<u64>, NoMemory>
        requires { steps.old < 2 ^ 62 }
        ensures ids { IfOk result (λ ids. ids.items ≡ ids_of (filter (is_due now) self.now.timers)) }
        ensures rising { IfOk result (λ ids. IsStrictlyIncreasing ids.items) }
        ensures steps { steps.new ≤ steps.old + count_by (is_due now) self.now.timers + 16 }
        ensures counted { IfOk result (λ ids. steps.old + length ids.items ≤ steps.new) }
        ensures listed { AreListed self.now.timers }
    {
        let mut ids = Vec::new(alloc);
        self.due.list_due(now, &mut ids, steps)?;
        list_fresh(&self.fresh, now, &mut ids, steps)?;
        ids.sort_unstable();
        Ok(ids)
    }

    fn due_from<L: Ledger>(
        &self,
        alloc: Global,
        now: u64,
        blank: Blank,
    ) -> Result<Vec<u64>, NoMemory>
        requires one_part { blank.parts ≡ 1 }
        requires name { blank.name ≡ L.name }
        requires parts { blank.parts ≡ L.parts }
        ensures ids { IfOk result (λ ids. ids.items ≡ ids_of (filter (is_due now) self.now.timers)) }
        ensures rising { IfOk result (λ ids. IsStrictlyIncreasing ids.items) }
        ensures listed { AreListed self.now.timers }
    {
        let mut steps = Steps::<L>::new(blank);
        self.due_counted(alloc, now, &mut steps)
    }
}
