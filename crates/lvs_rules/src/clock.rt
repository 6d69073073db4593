//! The clock: the moment, and the sweep of a bucket.
ghost use Rattle.std.specs.Prelude.{◌≡◌, ◌<◌, IfOk, OnErr};
ghost use Rattle.std.specs.List.{filter};
ghost use Rattle.lvs_model.specs.Clock.{tick, is_swept, sweep};

use crate::tables::{Tables, Whole};
use lvs_types::{Entry, NoMemory, Reply};
use std::alloc::Global;

pub(crate) fn tick<W: Whole, T: Tables<W>>(tables: &mut T, moment: u64) -> Reply
    requires sound { T.is_sound tables.old }
    ensures next { (result, T.state tables.new) ≡ tick (T.state tables.old) moment }
    ensures sound { T.is_sound tables.new }
{
    tables.set_moment(moment);
    Reply::Ticked
}

/// All due entries of the bucket end, which were found.
pub(crate) fn sweep<W: Whole, T: Tables<W>>(
    alloc: Global,
    tables: &mut T,
    bucket: u32,
    due: &[Entry],
) -> Result<Reply, NoMemory>
    requires sound { T.is_sound tables.old }
    requires free { T.is_free tables.old }
    requires buckets { bucket < (T.state tables.old).buckets }
    requires due { due.now ≡ filter (is_swept (T.state tables.old) bucket) (T.state tables.old).entries }
    ensures ok { IfOk result (λ r. (r, T.state tables.new) ≡ sweep (T.state tables.old) bucket) }
    ensures err { OnErr result (T.state tables.new ≡ T.state tables.old) }
    ensures sound { T.is_sound tables.new }
{
    tables.end_due(alloc, bucket, due)?;
    Ok(Reply::Swept(due.len() as u64))
}
