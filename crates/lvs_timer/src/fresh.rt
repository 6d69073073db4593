//! The timers that were armed last and stand in no due list yet.
ghost use Rattle.std.specs.Prelude.{◌≡◌, ◌<◌, ◌≤◌, ◌+◌, ◌^◌, ℕ, [], ◌++◌, length, count_by, OnOk};
ghost use Rattle.std.specs.List.{filter, find};
ghost use Rattle.std.specs.Vec.{vec_capacity};
ghost use Rattle.lvs_timer.specs.Timers.{is_due, has_id, ids_of};
ghost use Rattle.lvs_timer.specs.DueLists.{AreOnce, in_order};

use crate::due_list::DueList;
use crate::timer::Timer;
use lvs_types::{NoMemory, Steps};
use std::sync::ledger::Ledger;

/// How many timers are armed before they go to the due list.
pub(crate) const FRESH: usize = 15;

/// Moves the timers to the due list, the last one first; where there is no memory some are left.
pub(crate) fn settle(due: &mut DueList, fresh: &mut Vec<Timer>) -> Result<(), NoMemory>
    requires once { AreOnce (due.old ++ fresh.old.items) }
    ensures timers { in_order (due.new ++ fresh.new.items) ≡ in_order (due.old ++ fresh.old.items) }
    ensures once { AreOnce (due.new ++ fresh.new.items) }
    ensures ok { OnOk result (fresh.new.items ≡ []) }
    ensures few { length fresh.new.items ≤ length fresh.old.items }
    ensures capacity { vec_capacity fresh.new ≡ vec_capacity fresh.old }
{
    while let Some(timer) = fresh.last() {
        due.put(*timer)?;
        fresh.pop();
    }
    Ok(())
}

/// A due timer, if there is one: the first that was armed.
pub(crate) fn fresh_due(fresh: &[Timer], now: u64) -> Option<Timer>
    ensures { result ≡ find (is_due now) fresh.now }
{
    for timer in fresh {
        if timer.is_due(now) {
            return Some(*timer);
        }
    }
    None
}

/// Appends the ids of the due timers. A step is one timer looked at.
pub(crate) fn list_fresh<L: Ledger>(
    fresh: &[Timer],
    now: u64,
    ids: &mut Vec<u64>,
    steps: &mut Steps<L>,
) -> Result<(), NoMemory>
    requires few { length fresh.now ≤ 15 }
    requires bounded { steps.old < 2 ^ 62 + 2 ^ 63 }
    ensures ok { OnOk result (ids.new.items ≡ ids.old.items ++ ids_of (filter (is_due now) fresh.now)) }
    ensures steps { steps.new ≤ steps.old + length fresh.now }
    ensures counted { OnOk result (steps.new ≡ steps.old + length fresh.now) }
{
    for timer in fresh {
        steps.tick();
        if timer.is_due(now) {
            ids.push(timer.id)?;
        }
    }
    Ok(())
}
