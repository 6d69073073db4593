//! The buckets: made without entries, and their entries gathered.
ghost use Rattle.std.specs.Prelude.{◌≡◌, ℕ, length, IfOk};
ghost use Rattle.lvs_types.specs.declared.addr.Addr.{Addr};
ghost use Rattle.lvs_types.specs.declared.entry.Entry.{Entry};
ghost use Rattle.lvs_model.specs.Lists.{sorted_by};
ghost use Rattle.lvs_model.specs.State.{initial};
ghost use Rattle.lvs_core.specs.Agree.{Agree, AreBuckets, all_of};
ghost use Rattle.lvs_board.specs.Seen.{BoardSeen};

use lvs_bucket::Bucket;
use lvs_types::{Entry, NoMemory};
use std::alloc::Global;

/// Buckets without entries.
pub(crate) fn make_buckets(alloc: Global, count: u32) -> Result<Vec<Bucket>, NoMemory>
    ensures each { IfOk result (λ buckets. (local : Addr) → AreBuckets (initial local count) 0 buckets.items) }
    ensures count { IfOk result (λ buckets. length buckets.items ≡ count) }
{
    let mut buckets = Vec::new(alloc);
    for number in 0..count {
        buckets.push(Bucket::new(alloc, number, count)?)?;
    }
    Ok(buckets)
}

/// The entries of all buckets, one bucket after the other.
pub(crate) fn gather(alloc: Global, buckets: &[Bucket]) -> Result<Vec<Entry>, NoMemory>
    ensures { IfOk result (λ all. all.items ≡ all_of buckets.now) }
{
    let mut all = Vec::new(alloc);
    for bucket in buckets {
        let mut entries = bucket.all(alloc)?;
        all.append(&mut entries)?;
    }
    Ok(all)
}
