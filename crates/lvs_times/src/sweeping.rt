//! Ten sweeps, each of the entries that are due at its moment.
ghost use Rattle.std.specs.Prelude.{◌≡◌, ◌<◌};
ghost use Rattle.std.specs.List.{AllByRecursion};
ghost use Rattle.lvs_times.specs.Numbered.{IsTimed};

use crate::filling::deadline_of;
use crate::load::Load;
use lvs_entries::Entries;
use lvs_timer::Timers;
use lvs_types::NoMemory;
use std::alloc::Global;

/// The moments of the sweeps, in seconds.
const FIRST: u64 = 60;

const LAST: u64 = 69;

/// Takes out all that is due: each id from the timers, and its entry.
fn sweep(
    alloc: Global,
    entries: &mut Entries,
    timers: &mut Timers,
    load: Load,
    now: u64,
) -> Result<usize, NoMemory>
    requires timed { AllByRecursion (IsTimed load) timers.old.timers }
    requires some { 0 < load.count }
    ensures { AllByRecursion (IsTimed load) timers.new.timers }
{
    let due = timers.due(alloc, now)?;
    for id in &due {
        timers.disarm(*id, deadline_of(*id, load));
        entries.remove(*id);
    }
    Ok(due.len())
}

/// The ten sweeps: how many entries they took out.
pub(crate) fn sweep_all(
    alloc: Global,
    entries: &mut Entries,
    timers: &mut Timers,
    load: Load,
) -> Result<usize, NoMemory>
    requires timed { AllByRecursion (IsTimed load) timers.old.timers }
    requires some { 0 < load.count }
{
    let mut swept: usize = 0;
    for now in FIRST..=LAST {
        swept = swept.saturating_add(sweep(alloc, entries, timers, load, now)?);
    }
    Ok(swept)
}
