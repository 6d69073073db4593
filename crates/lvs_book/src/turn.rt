//! One turn of a pass: the ticket, the wait, and the work on the value.
ghost use Rattle.std.specs.Prelude.{ℕ, ◌≡◌, ◌<◌, ◌++◌, ◌∷◌, [], length, IfOk, IfErr};
ghost use Rattle.lvs_book.specs.Lanes.{stands, numbers, grown, AllFrom, FirstFrom, HaveActs, Apart};
ghost use Rattle.lvs_book.specs.Steps.{HasTurn, Ready, worked, at_rest};

use crate::journal::{Journal, Work};
use crate::plays::{Draw, Look};
use crate::turnstile::{BookSeat, SERVING, TICKET, Turnstile};
use lvs_types::NoMemory;
use std::sync::Wait;
use std::thread;

impl<T: Journal> Turnstile<T> {
    // Draws a ticket, and yields between two looks until the ticket is served.
    fn take_turn<R: Wait>(&self, rt: &R, seat: &mut BookSeat<T>)
        requires book { seat.old.table_id ≡ self.now.table.shared.table_id }
        requires out { (seat.old.me ≡ (at_rest seat.old.me.0.lanes, [])) × (0 < length seat.old.me.0.lanes) }
        ensures book { seat.new.table_id ≡ seat.old.table_id }
        ensures turn { (t : ℕ) × HasTurn T.origin T.acts T.names t seat.old.me seat.new.me }
    {
        let ticket = self.table.shared.fetch_add::<Draw>(seat, TICKET, 1);
        for _ in rt.forever() {
            if self.table.shared.load::<Look>(seat, SERVING) == ticket {
                return;
            }
            thread::yield_now();
        }
        unreachable!()
    }

    // The work on the value that the seat holds, as plain memory: no step on a word, so no view changes.
    fn work_held<W: Work<T>>(
        &self,
        seat: &mut BookSeat<T>,
        work: &mut W,
    ) -> Result<W::Out, NoMemory>
        requires book { seat.old.table_id ≡ self.now.table.shared.table_id }
        requires ready { Ready T.origin T.acts T.names (W.lanes work.old) (W.origin work.old) (W.lists work.old) seat.old.me }
        ensures book { seat.new.table_id ≡ seat.old.table_id }
        ensures ok { IfOk result (λ out. worked T.origin T.acts T.names (W.lanes work.old) (λ a. W.first work.old a out work.new) seat.old.me seat.new.me) }
        ensures err { IfErr result (λ _. (seat.new.me ≡ seat.old.me) × W.second work.old work.new) }
    {
        work.work(seat.slot_mut(&self.table.shared, 0))
    }

    // One turn with its work. At `Err` the value is given back as it was found, and no act is counted.
    pub(crate) fn commit_seat<W: Work<T>, R: Wait>(
        &self,
        rt: &R,
        seat: &mut BookSeat<T>,
        work: &mut W,
    ) -> Result<W::Out, NoMemory>
        requires book { seat.old.table_id ≡ self.now.table.shared.table_id }
        requires out { (seat.old.me ≡ (at_rest seat.old.me.0.lanes, [])) × (0 < length seat.old.me.0.lanes) }
        requires lanes { (k : ℕ) → stands k (W.lanes work.old) ≡ stands k (numbers seat.old.me.0.lanes) }
        requires origin { FirstFrom (W.origin work.old) seat.old.me.0.lanes }
        requires acts { HaveActs (W.lists work.old) seat.old.me.0.lanes }
        ensures book { seat.new.table_id ≡ seat.old.table_id }
        ensures out { (seat.new.me ≡ (at_rest seat.new.me.0.lanes, [])) × (length seat.new.me.0.lanes ≡ length seat.old.me.0.lanes) }
        ensures lanes { AllFrom (W.origin work.old) seat.old.me.0.lanes × Apart seat.old.me.0.lanes }
        ensures ok { IfOk result (λ out. (a : T.Act) × (seat.new.me ≡ (at_rest (grown a seat.old.me.0.lanes), [])) × W.first work.old a out work.new) }
        ensures err { IfErr result (λ _. (seat.new.me ≡ seat.old.me) × W.second work.old work.new) }
    {
        self.take_turn(rt, seat);
        match self.work_held(seat, work) {
            Ok(out) => {
                self.count_and_leave(seat);
                Ok(out)
            }
            Err(failed) => {
                self.leave(seat);
                Err(failed)
            }
        }
    }
}
