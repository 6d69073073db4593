//! The records on the desk that wait to be sent.
ghost use Rattle.std.specs.Prelude.{◌≡◌, ◌<◌, ◌-◌, ◌++◌, ◌∷◌, []};
ghost use Rattle.lvs_board.specs.Desks.{state_of, IsSound};
ghost use Rattle.lvs_board.specs.Rooms.{record_room};

use crate::desk::Desk;
use lvs_rules::Whole;
use lvs_types::SyncRecord;

impl Desk {
    /// A record waits to be sent, in room that was made.
    pub(crate) fn push_record<W: Whole>(&mut self, waiting: SyncRecord)
        requires sound { IsSound W.whole self.old }
        requires room { 0 < record_room self.old }
        ensures state { state_of W.whole self.new ≡ record (state_of W.whole self.old) { pending = (state_of W.whole self.old).pending ++ waiting ∷ [] } }
        ensures sound { IsSound W.whole self.new }
        ensures room { record_room self.new ≡ record_room self.old - 1 }
        ensures rest { self.new ≡ record self.old { pending = self.new.pending } }
    {
        self.pending.push_reserved(waiting);
    }

    /// The records that wait to be sent.
    pub(crate) fn pending<W: Whole>(&self) -> &[SyncRecord]
        ensures { result.now ≡ (state_of W.whole self.now).pending }
    {
        &self.pending
    }

    /// No record waits any longer.
    pub(crate) fn clear_pending<W: Whole>(&mut self)
        requires sound { IsSound W.whole self.old }
        ensures state { state_of W.whole self.new ≡ record (state_of W.whole self.old) { pending = [] } }
        ensures sound { IsSound W.whole self.new }
        ensures rest { self.new ≡ record self.old { pending = self.new.pending } }
    {
        self.pending.clear();
    }
}
