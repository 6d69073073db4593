//! How a book ends: one pass has all lanes, and the value comes out of the slot.
ghost use Rattle.std.specs.Prelude.{◌≡◌, ◌<◌, [], map, length, IsOk, IfOk, IfErr, vec_len};
ghost use Rattle.lvs_book.specs.Lanes.{AllFrom, Own, Within};
ghost use Rattle.lvs_book.specs.Passes.{held_lane, AreAll, Tells};
ghost use Rattle.lvs_book.specs.Steps.{at_rest};

use crate::journal::Journal;
use crate::pass::{Pass, take_seat};
use crate::plays::TakeOver;
use crate::turnstile::{BookSeat, Turnstile};
use lvs_types::NoMemory;

impl<T: Journal> Turnstile<T> {
    // One seat with the lanes of all passes. None of them is left.
    fn collect(&self, passes: &mut Vec<Pass<T>>) -> BookSeat<T>
        requires some { 0 < vec_len passes.old }
        requires all { AreAll self.now.table.shared.table_id 0 self.now.table.shared.key.lanes passes.old.items }
        ensures book { result.table_id ≡ self.now.table.shared.table_id }
        ensures out { result.me ≡ (at_rest result.me.0.lanes, []) }
        ensures lanes { passes.old.items ≡ map (held_lane self.now.table.shared.table_id) result.me.0.lanes }
    {
        let Some(last) = passes.pop() else {
            unreachable!()
        };
        let Pass { mut badge } = last;
        let mut seat = take_seat::<T>(&mut badge);
        while let Some(pass) = passes.pop() {
            let Pass { mut badge } = pass;
            let mut longer = take_seat::<T>(&mut badge);
            self.table.shared.join_seat::<TakeOver>(&mut longer, seat);
            seat = longer;
        }
        seat
    }

    // The value, once one seat has all lanes.
    fn end(self, seat: BookSeat<T>) -> T
        requires book { seat.table_id ≡ self.table.shared.table_id }
        requires out { seat.me ≡ (at_rest seat.me.0.lanes, []) }
        requires all { length seat.me.0.lanes ≡ self.table.shared.key.lanes }
        ensures origin { T.origin result ≡ T.origin self.table.shared.key.opened.value }
        ensures lanes { AllFrom (T.origin result) seat.me.0.lanes × Own T.names (T.acts result) seat.me.0.lanes }
        ensures within { Within T.names self.table.shared.key.lanes (T.acts result) }
    {
        let Turnstile { table } = self;
        let mut closed = table.close_with(seat);
        let value = closed.take(0);
        closed.free();
        value
    }

    /// It takes no memory, so it doesn't refuse.
    pub(crate) fn close(
        self,
        mut passes: Vec<Pass<T>>,
    ) -> Result<T, (Turnstile<T>, Vec<Pass<T>>, NoMemory)>
        requires all { AreAll self.table.shared.table_id 0 self.table.shared.key.lanes passes.items }
        ensures ok { IfOk result (λ t. (T.origin t ≡ T.origin self.table.shared.key.opened.value) × Tells T.names (T.origin t) (T.acts t) passes.items × Within T.names self.table.shared.key.lanes (T.acts t)) }
        ensures certain { IsOk result }
        ensures err { IfErr result (λ r. (r.0 ≡ self) × (r.1 ≡ passes)) }
    {
        let seat = self.collect(&mut passes);
        Ok(self.end(seat))
    }
}
