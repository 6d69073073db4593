//! What a call did.
ghost use Rattle.std.specs.Prelude.{◌≡◌, []};
ghost use Rattle.lvs_run.specs.Answers.{status_of};

use crate::rounds::Played;
use crate::writing::Wrote;
use lvs_types::{RoundBook, Status};
use std::alloc::Global;

/// What a call did.
#[derive(Debug, Drop)]
pub struct Done {
    /// How it ended.
    pub status: Status,
    /// The books of the rounds that were completed, in order.
    pub rounds: Vec<RoundBook>,
}

/// A call that ended before its first round.
pub(crate) fn without_rounds(alloc: Global, status: Status) -> Done
    ensures status { result.status ≡ status }
    ensures rounds { result.rounds.items ≡ [] }
{
    Done {
        status,
        rounds: Vec::new(alloc),
    }
}

/// The status of a task that ends so once all was written.
pub(crate) fn ended(end: Status, wrote: Wrote) -> Status
    ensures { result ≡ status_of end wrote }
{
    match wrote {
        Wrote::All => end,
        Wrote::Prefix => Status::WriteFault,
        Wrote::NoMemory => Status::NoMemory,
    }
}

/// A call that played rounds, and ends as finished once all was written.
pub(crate) fn with_rounds(played: Played) -> Done
    ensures status { result.status ≡ status_of Status.Finished played.wrote }
    ensures rounds { result.rounds.items ≡ played.rounds.items }
{
    Done {
        status: ended(Status::Finished, played.wrote),
        rounds: played.rounds,
    }
}
