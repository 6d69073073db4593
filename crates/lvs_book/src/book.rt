//! The book as its users see it.
ghost use Rattle.std.specs.Prelude.{◌≡◌, ◌≢◌, ℕ, ◌<◌, ◌∷◌, [], IsOk, IfOk, IfErr};
ghost use Rattle.lvs_book.specs.Lanes.{stands, Within};
ghost use Rattle.lvs_book.specs.Passes.{opened, with_act, AreAll, Tells};

use crate::journal::{Journal, Work};
use crate::pass::Pass;
use crate::turnstile::Turnstile;
use lvs_types::NoMemory;
use std::alloc::Global;
use std::marker::Model;
use std::sync::Wait;

/// A value that only the holder of a turn changes, with its counted history. Threads share it by `&`.
///
/// Contracts see its identity, how many lanes it has, and its origin.
#[derive(Drop)]
pub struct Book<T: Journal> {
    turnstile: Turnstile<T>,
}

impl<T: Journal> Model for Book<T> {
    ghost use Rattle.lvs_book.specs.Passes.{BookIs};

    ghost Value = { BookIs T.Origin };

    ghost view = { λ b. record { id = b.turnstile.table.shared.table_id; lanes = b.turnstile.table.shared.key.lanes; origin = T.origin b.turnstile.table.shared.key.opened.value } };
}

impl<T: Journal> Book<T> {
    /// A book of this value, and a pass for each lane: in the order of their lanes, from 0, and with no acts.
    /// Where there is no memory the value comes back.
    pub fn begin(
        alloc: Global,
        value: T,
        passes: u32,
    ) -> Result<(Book<T>, Vec<Pass<T>>), (T, NoMemory)>
        requires some { 0 < passes }
        requires empty { T.acts value ≡ [] }
        ensures book { IfOk result (λ r. (r.0.lanes ≡ passes) × (r.0.origin ≡ T.origin value)) }
        ensures passes { IfOk result (λ r. r.1.items ≡ opened r.0.id (T.origin value) 0 passes) }
        ensures err { IfErr result (λ r. r.0 ≡ value) }
    {
        match Turnstile::begin(alloc, value, passes) {
            Ok((turnstile, given)) => Ok((Book { turnstile }, given)),
            Err(refused) => Err(refused),
        }
    }

    /// Waits for a turn, and does the work on the value. The work names the pass's lane alone. The act that
    /// it adds is then the pass's last; at `Err` there is none.
    pub fn commit<W: Work<T>, R: Wait>(
        &self,
        rt: &R,
        pass: &mut Pass<T>,
        work: &mut W,
    ) -> Result<W::Out, NoMemory>
        requires book { pass.old.book ≡ self.now.id }
        requires lane { (k : ℕ) → stands k (W.lanes work.old) ≡ stands k (pass.old.lane ∷ []) }
        requires origin { pass.old.origin ≡ W.origin work.old }
        requires acts { W.lists work.old pass.old.lane ≡ pass.old.acts }
        ensures ok { IfOk result (λ out. (a : T.Act) × (pass.new ≡ with_act a pass.old) × W.first work.old a out work.new) }
        ensures err { IfErr result (λ _. (pass.new ≡ pass.old) × W.second work.old work.new) }
    {
        self.turnstile.commit(rt, pass, work)
    }

    /// The same with two passes, whose two lanes the work names. The act is then the last of both.
    pub fn commit_pair<W: Work<T>, R: Wait>(
        &self,
        rt: &R,
        first: &mut Pass<T>,
        second: &mut Pass<T>,
        work: &mut W,
    ) -> Result<W::Out, NoMemory>
        requires books { (first.old.book ≡ self.now.id) × (second.old.book ≡ self.now.id) }
        requires lanes { (k : ℕ) → stands k (W.lanes work.old) ≡ stands k (first.old.lane ∷ second.old.lane ∷ []) }
        requires origin { first.old.origin ≡ W.origin work.old }
        requires acts { (W.lists work.old first.old.lane ≡ first.old.acts) × (W.lists work.old second.old.lane ≡ second.old.acts) }
        ensures lanes { (first.old.lane ≢ second.old.lane) × (second.old.origin ≡ first.old.origin) }
        ensures ok { IfOk result (λ out. (a : T.Act) × (first.new ≡ with_act a first.old) × (second.new ≡ with_act a second.old) × W.first work.old a out work.new) }
        ensures err { IfErr result (λ _. (first.new ≡ first.old) × (second.new ≡ second.old) × W.second work.old work.new) }
    {
        self.turnstile.commit_pair(rt, first, second, work)
    }

    /// Takes all passes of the book, in order, and gives the value. Its acts that name a lane are then exactly
    /// those of the lane's pass, in order. It takes no memory, so it doesn't refuse.
    pub fn close(self, passes: Vec<Pass<T>>) -> Result<T, (Book<T>, Vec<Pass<T>>, NoMemory)>
        requires all { AreAll self.id 0 self.lanes passes.items }
        ensures origin { IfOk result (λ t. T.origin t ≡ self.origin) }
        ensures lanes { IfOk result (λ t. Tells T.names (T.origin t) (T.acts t) passes.items) }
        ensures within { IfOk result (λ t. Within T.names self.lanes (T.acts t)) }
        ensures certain { IsOk result }
        ensures err { IfErr result (λ r. (r.0 ≡ self) × (r.1 ≡ passes)) }
    {
        let Book { turnstile } = self;
        match turnstile.close(passes) {
            Ok(value) => Ok(value),
            Err((turnstile, passes, failed)) => Err((Book { turnstile }, passes, failed)),
        }
    }
}
