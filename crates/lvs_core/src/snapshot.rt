//! What the director shows of itself.
ghost use Rattle.std.specs.Prelude.{◌≡◌, ◌≤◌, ◌==◌, ℕ, count_by, IfOk};
ghost use Rattle.lvs_types.specs.declared.entry.Entry.{Entry};
ghost use Rattle.lvs_model.specs.Lists.{sorted_by};
ghost use Rattle.lvs_model.specs.Snapshots.{snapshot_of};
ghost use Rattle.lvs_core.specs.Agree.{Agree};

use crate::buckets::gather;
use lvs_board::Board;
use lvs_bucket::Bucket;
use lvs_rules::Whole;
use lvs_types::{Entry, Listed, NoMemory, Snapshot};
use std::alloc::Global;

/// The entries by id, where no two have one id.
fn sort_entries(mut entries: Vec<Entry>) -> Vec<Entry>
    requires once { (n : ℕ) → count_by (λ (e : Entry). e.id == n) entries.items ≤ 1 }
    ensures { result.items ≡ sorted_by (λ (e : Entry). e.id) entries.items }
{
    entries.sort_unstable_by_key(|e| e.id);
    entries
}

/// All that the board and the buckets keep, in the order in which listings show it.
pub(crate) fn show<W: Whole>(
    alloc: Global,
    board: &Board,
    buckets: &[Bucket],
) -> Result<Snapshot, NoMemory>
    requires agree { Agree board.now buckets.now W.whole }
    ensures { IfOk result (λ shown. shown ≡ snapshot_of W.whole) }
{
    let mut shown = board.tables(alloc)?;
    let entries = sort_entries(gather(alloc, buckets)?);
    shown.entries = Listed::from_vec(entries);
    Ok(shown)
}
