//! How the book of a round is opened.
ghost use Rattle.std.specs.Prelude.{◌≡◌, ◌+◌, ◌<◌, ◌≤◌, ◌^◌, length, IfOk, IfErr};
ghost use Rattle.lvs_shared.specs.Openings.{count_items, AreTimeless};

use crate::origin::Opened;
use crate::played::Played;
use lvs_book::{Book, Pass};
use lvs_bucket::Bucket;
use lvs_core::Core;
use lvs_types::{Item, Listed, NoMemory, RoundPlan};
use std::alloc::Global;
use std::marker::Model;
use std::snapshot::Snapshot;

/// A book over a core and a plan, with its passes. Contracts see its identity, the core and the plan
/// that it began with, and the round's number.
#[derive(Drop)]
pub struct Opening {
    pub(crate) number: u64,
    /// Of the round, in seconds.
    pub(crate) moment: u64,
    pub(crate) book: Book<Played>,
    pub(crate) passes: Vec<Pass<Played>>,
    pub(crate) buckets: Vec<Bucket>,
    pub(crate) lists: Vec<Listed<Item>>,
}

impl Model for Opening {
    ghost use Rattle.lvs_shared.specs.Rounds.{DirectorSeen, IsOpening};

    ghost Value = { DirectorSeen };

    ghost view = { λ o. record { book = o.book.id; origin = o.book.origin; number = o.number } };

    ghost invariant = { λ o. IsOpening o.book o.moment o.passes.items o.buckets.items o.lists.items };
}

impl Opening {
    /// The book of a round of this number, and its passes. For want of memory core and plan come back.
    ///
    /// The plan is for the core's buckets and its present moment, has 4 to 65,536 lists and no tick,
    /// and its items and the core's steps together are fewer than 2^62.
    pub fn new(
        alloc: Global,
        core: Core,
        plan: RoundPlan,
        number: u64,
    ) -> Result<Opening, (Core, RoundPlan, NoMemory)>
        requires moment { core.state.now ≡ plan.moment }
        requires buckets { core.state.buckets ≡ plan.buckets }
        requires timeless { AreTimeless plan.lists }
        requires some { 4 ≤ length plan.lists }
        requires many { length plan.lists ≤ 65536 }
        requires young { core.steps + count_items plan.lists < 2 ^ 62 }
        ensures origin { IfOk result (λ o. o.origin ≡ record { core = core; plan = plan }) }
        ensures number { IfOk result (λ o. o.number ≡ number) }
        ensures err { IfErr result (λ e. (e.0 ≡ core) × (e.1 ≡ plan)) }
    {
        let opened = Opened { core, plan };
        let origin = Snapshot::of(&opened);
        let Opened { core, plan } = opened;
        let (board, buckets) = core.into_parts();
        let lanes = buckets.len() + plan.lists.as_slice().len();
        match Book::begin(alloc, Played::new(alloc, board, origin), lanes as u32) {
            Ok((book, passes)) => Ok(Opening {
                number,
                moment: plan.moment,
                book,
                passes,
                buckets,
                lists: plan.lists.into_vec(),
            }),
            Err((played, cause)) => {
                Err((Core::from_parts(played.into_board(), buckets), plan, cause))
            }
        }
    }
}
