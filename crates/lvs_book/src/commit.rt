//! The turns that callers take, with one pass or with two.
ghost use Rattle.std.specs.Prelude.{◌≡◌, ◌≢◌, ℕ, ◌∷◌, [], IfOk, IfErr};
ghost use Rattle.lvs_book.specs.Lanes.{stands};
ghost use Rattle.lvs_book.specs.Passes.{with_act};

use crate::journal::{Journal, Work};
use crate::pass::{Pass, take_seat};
use crate::plays::{Part, TakeOver};
use crate::turnstile::Turnstile;
use lvs_types::NoMemory;
use std::sync::Wait;

impl<T: Journal> Turnstile<T> {
    /// A turn with one pass.
    pub(crate) fn commit<W: Work<T>, R: Wait>(
        &self,
        rt: &R,
        pass: &mut Pass<T>,
        work: &mut W,
    ) -> Result<W::Out, NoMemory>
        requires book { pass.old.book ≡ self.now.table.shared.table_id }
        requires lane { (k : ℕ) → stands k (W.lanes work.old) ≡ stands k (pass.old.lane ∷ []) }
        requires origin { pass.old.origin ≡ W.origin work.old }
        requires acts { W.lists work.old pass.old.lane ≡ pass.old.acts }
        ensures ok { IfOk result (λ out. (a : T.Act) × (pass.new ≡ with_act a pass.old) × W.first work.old a out work.new) }
        ensures err { IfErr result (λ _. (pass.new ≡ pass.old) × W.second work.old work.new) }
    {
        let mut seat = take_seat::<T>(&mut pass.badge);
        let outcome = self.commit_seat(rt, &mut seat, work);
        pass.badge = seat.into_badge();
        outcome
    }

    /// A turn with two passes, which are one while it lasts: one step adds the act to both lanes.
    pub(crate) fn commit_pair<W: Work<T>, R: Wait>(
        &self,
        rt: &R,
        first: &mut Pass<T>,
        second: &mut Pass<T>,
        work: &mut W,
    ) -> Result<W::Out, NoMemory>
        requires books { (first.old.book ≡ self.now.table.shared.table_id) × (second.old.book ≡ self.now.table.shared.table_id) }
        requires lanes { (k : ℕ) → stands k (W.lanes work.old) ≡ stands k (first.old.lane ∷ second.old.lane ∷ []) }
        requires origin { first.old.origin ≡ W.origin work.old }
        requires acts { (W.lists work.old first.old.lane ≡ first.old.acts) × (W.lists work.old second.old.lane ≡ second.old.acts) }
        ensures lanes { (first.old.lane ≢ second.old.lane) × (second.old.origin ≡ first.old.origin) }
        ensures ok { IfOk result (λ out. (a : T.Act) × (first.new ≡ with_act a first.old) × (second.new ≡ with_act a second.old) × W.first work.old a out work.new) }
        ensures err { IfErr result (λ _. (first.new ≡ first.old) × (second.new ≡ second.old) × W.second work.old work.new) }
    {
        let mut seat = take_seat::<T>(&mut first.badge);
        let other = take_seat::<T>(&mut second.badge);
        self.table.shared.join_seat::<TakeOver>(&mut seat, other);
        let outcome = self.commit_seat(rt, &mut seat, work);
        let other = self.table.shared.split_seat::<Part>(&mut seat);
        first.badge = seat.into_badge();
        second.badge = other.into_badge();
        outcome
    }
}
