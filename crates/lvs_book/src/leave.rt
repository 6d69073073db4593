//! How a turn ends: the act that was added is counted, the value given back and the next ticket served.
ghost use Rattle.std.specs.Prelude.{◌≡◌, ◌++◌, ◌∷◌, [], List};
ghost use Rattle.lvs_book.specs.Lanes.{grown};
ghost use Rattle.lvs_book.specs.Steps.{Added, MayLeave, at_rest};

use crate::journal::Journal;
use crate::plays::{Commit, Raise};
use crate::turnstile::{BookSeat, COUNT, SERVING, Turnstile};

impl<T: Journal> Turnstile<T> {
    // Counts the act that the held value has last, and leaves.
    pub(crate) fn count_and_leave(&self, seat: &mut BookSeat<T>)
        requires book { seat.old.table_id ≡ self.now.table.shared.table_id }
        requires added { Added T.origin T.acts T.names seat.old.me }
        ensures book { seat.new.table_id ≡ seat.old.table_id }
        ensures out { (y : T) (found : List T.Act) (a : T.Act) → seat.old.me.1 ≡ (0, y) ∷ [] → T.acts y ≡ found ++ a ∷ [] → seat.new.me ≡ (at_rest (grown a seat.old.me.0.lanes), []) }
    {
        self.table.shared.fetch_add::<Commit>(seat, COUNT, 1);
        self.leave(seat);
    }

    // Gives the value back, and serves the next ticket.
    pub(crate) fn leave(&self, seat: &mut BookSeat<T>)
        requires book { seat.old.table_id ≡ self.now.table.shared.table_id }
        requires held { MayLeave T.origin T.acts T.names seat.old.me }
        ensures book { seat.new.table_id ≡ seat.old.table_id }
        ensures out { seat.new.me ≡ (at_rest seat.old.me.0.lanes, []) }
    {
        self.table.shared.fetch_add::<Raise>(seat, SERVING, 1);
    }
}
