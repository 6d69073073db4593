//! The due entries of a bucket end.
ghost use Rattle.std.specs.Prelude.{◌≡◌};
ghost use Rattle.std.specs.List.{filter};
ghost use Rattle.lvs_model.specs.Clock.{is_swept, sweep};
ghost use Rattle.lvs_board.specs.Desks.{state_of, IsSound};

use crate::desk::Desk;
use crate::leaving::{leave_servers, leave_templates};
use lvs_rules::Whole;
use lvs_types::{Change, Entry};

impl Desk {
    /// The due entries of the bucket end. `due` has them all, in order of the list. Nothing was
    /// changed in the item before, and its moment is the one at which it began.
    pub(crate) fn end_due<W: Whole>(&mut self, bucket: u32, due: &[Entry])
        requires sound { IsSound W.whole self.old }
        requires still { self.old.change ≡ Change.Keep }
        requires moment { self.old.moment ≡ W.whole.now }
        requires due { due.now ≡ filter (is_swept (state_of W.whole self.old) bucket) (state_of W.whole self.old).entries }
        ensures state { state_of W.whole self.new ≡ (sweep (state_of W.whole self.old) bucket).1 }
        ensures sound { IsSound W.whole self.new }
        ensures rest { self.new ≡ record self.old { dests = self.new.dests; templates = self.new.templates; bucket = bucket; change = Change.EndDue self.old.moment } }
    {
        leave_servers(&mut self.dests, due);
        leave_templates(&mut self.templates, due);
        self.bucket = bucket;
        self.change = Change::EndDue(self.moment);
    }
}
