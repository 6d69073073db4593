//! What lies behind a bucket's lock: the bucket, and its own pass on the book.
ghost use Rattle.std.specs.Prelude.{◌≡◌, ◌+◌, Some, IfOk, IfErr};
ghost use Rattle.std.specs.Option.{option_copied};
ghost use Rattle.lvs_book.specs.Passes.{with_act};
ghost use Rattle.lvs_model.specs.Buckets.{head_of_item, home};
ghost use Rattle.lvs_shared.specs.declared.origin.Act.{Act};
ghost use Rattle.lvs_shared.specs.Openings.{begun};
ghost use Rattle.lvs_shared.specs.Locked.{IsHome};
ghost use Rattle.lvs_shared.specs.Played.{Notes};
ghost use Rattle.lvs_shared.specs.Works.{IsOwn};

use crate::name::RoundName;
use crate::paired::Paired;
use crate::played::Played;
use lvs_book::{Book, Pass};
use lvs_bucket::Bucket;
use lvs_outside::Gate;
use lvs_types::{Head, NoMemory, Placed};
use std::alloc::Global;
use std::marker::{Model, PhantomData};
use std::snapshot::Snapshot;
use std::sync::Wait;

/// A bucket with its own pass on the book. Whenever its lock is free, the entries are what the
/// changes of the pass's acts, in order, make of the opening ones.
#[derive(Drop)]
pub struct Chamber<N: RoundName> {
    bucket: Bucket,
    pass: Pass<Played>,
    /// Of the round, in seconds.
    moment: u64,
    of: PhantomData<N>,
}

impl<N: RoundName> Model for Chamber<N> {
    ghost use Rattle.std.specs.Prelude.{◌≡◌};
    ghost use Rattle.lvs_shared.specs.Locked.{ChamberSeen, IsHome};

    ghost Value = { ChamberSeen };

    ghost view = { λ c. record { bucket = c.bucket; pass = c.pass } };

    ghost use Rattle.lvs_shared.specs.Openings.{begun};

    ghost invariant = { λ c. (c.pass.book ≡ N.book.id) × (c.moment ≡ (begun N.book.origin).now) × IsHome N.book.origin c.bucket c.pass };
}

impl<N: RoundName> Chamber<N> {
    pub(crate) fn new(bucket: Bucket, pass: Pass<Played>, moment: u64) -> Chamber<N>
        requires moment { moment ≡ (begun N.book.origin).now }
        requires book { pass.book ≡ N.book.id }
        requires home { IsHome N.book.origin bucket pass }
        ensures { result ≡ record { bucket = bucket; pass = pass } }
    {
        Chamber {
            bucket,
            pass,
            moment,
            of: PhantomData,
        }
    }

    pub(crate) fn number(&self) -> u32
        ensures { result ≡ self.now.bucket.number }
    {
        self.bucket.number()
    }

    pub(crate) fn into_parts(self) -> (Bucket, Pass<Played>)
        ensures bucket { result.0 ≡ self.bucket }
        ensures pass { result.1 ≡ self.pass }
        ensures book { self.pass.book ≡ N.book.id }
        ensures home { IsHome N.book.origin self.bucket self.pass }
    {
        let Chamber {
            bucket,
            pass,
            moment: _,
            of: _,
        } = self;
        (bucket, pass)
    }

    /// The next act of an actor, whose pass is `own`, on this bucket; `head` is what the headers of its
    /// packet say. The gate is called once the bucket has found what it has for the item.
    pub(crate) fn enter<R: Wait, G: Gate>(
        &mut self,
        rt: &R,
        alloc: Global,
        book: &Book<Played>,
        own: &mut Pass<Played>,
        placed: Placed,
        head: Option<&Head>,
        gate: &G,
    ) -> Result<(), (Placed, NoMemory)>
        requires books { (book.now.id ≡ N.book.id) × (own.old.book ≡ N.book.id) }
        requires origin { own.old.origin ≡ N.book.origin }
        requires own { IsOwn own.old placed }
        requires read { option_copied head ≡ head_of_item placed.item }
        requires home { home (begun N.book.origin).buckets placed.item ≡ Some self.old.bucket.number }
        ensures ok { IfOk result (λ _. (act : Act) × (own.new ≡ with_act act own.old) × Notes N.book.origin placed act) }
        ensures err { IfErr result (λ e. (e.0 ≡ placed) × (own.new ≡ own.old)) }
    {
        let found = match self.bucket.prepare(alloc, &placed.item, head, self.moment) {
            Ok(found) => found,
            Err(cause) => return Err((placed, cause)),
        };
        gate.at(placed.actor, placed.number);
        let mut work = Paired {
            alloc,
            placed: Some(placed),
            found: Some(found),
            own: Snapshot::of(own),
            home: Snapshot::of(&self.pass),
        };
        match book.commit_pair(rt, own, &mut self.pass, &mut work) {
            Ok(change) => {
                self.bucket.apply(&change);
                Ok(())
            }
            Err(cause) => match work.into_placed() {
                Some(placed) => Err((placed, cause)),
                None => unreachable!(),
            },
        }
    }
}
