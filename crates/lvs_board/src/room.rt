//! Room on the desk, made before the first change.
ghost use Rattle.std.specs.Prelude.{◌≡◌, ◌<◌, ◌≤◌, OnOk};
ghost use Rattle.lvs_board.specs.Desks.{state_of, IsSound};
ghost use Rattle.lvs_board.specs.Rooms.{record_room};

use crate::desk::Desk;
use lvs_rules::Whole;
use lvs_types::NoMemory;

impl Desk {
    /// Room for a template and two records, which is all that a packet or a record adds here. An
    /// entry takes none: its bucket has it.
    pub(crate) fn make_room<W: Whole>(&mut self) -> Result<(), NoMemory>
        requires sound { IsSound W.whole self.old }
        ensures state { state_of W.whole self.new ≡ state_of W.whole self.old }
        ensures sound { IsSound W.whole self.new }
        ensures spare { OnOk result (0 < self.new.templates.spare) }
        ensures record_room { OnOk result (2 ≤ record_room self.new) }
        ensures rest { self.new ≡ record self.old { templates = self.new.templates; pending = self.new.pending } }
    {
        self.pending.reserve(2)?;
        self.templates.reserve()
    }
}
