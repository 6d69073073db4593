//! The three numbers of a server, and its overload, as entries and templates come and go.
ghost use Rattle.std.specs.Prelude.{◌≡◌, ◌<◌, ◌^◌, not, IfSome};
ghost use Rattle.lvs_dests.specs.Rows.{row_at, change, named, bound, ended, shifted, held, unheld, IsFarBelow};

use crate::dests::Dests;
use crate::row;
use lvs_types::DestId;

impl Dests {
    /// An entry was bound to the server: the active number rises where it is active, and else the
    /// inactive one. Then overload is looked at. An id that isn't there changes nothing.
    pub fn bind(&mut self, id: DestId, active: bool)
        requires room { IfSome (row_at id self.old.rows) IsFarBelow }
        ensures { self.new ≡ change id (bound active) self.old }
    {
        if let Some(row) = self.row(id) {
            let row = row::raise(&row, active);
            self.revise(row::after_binding(&row));
        }
    }

    /// An entry that named the server was ended: the active number falls where it was active, and
    /// else the inactive one. Then overload is looked at. An id that isn't there changes nothing.
    pub fn unbind(&mut self, id: DestId, active: bool)
        requires some { IfSome (row_at id self.old.rows) (λ row. 0 < named active row) }
        ensures { self.new ≡ change id (ended active) self.old }
    {
        if let Some(row) = self.row(id) {
            let row = row::lower(&row, active);
            self.revise(row::after_ending(&row));
        }
    }

    /// An entry that names the server became active, or inactive: that number rises, and the other
    /// one falls. Overload stays.
    /// An id that isn't there changes nothing.
    pub fn shift(&mut self, id: DestId, active: bool)
        requires room { IfSome (row_at id self.old.rows) IsFarBelow }
        requires some { IfSome (row_at id self.old.rows) (λ row. 0 < named (not active) row) }
        ensures { self.new ≡ change id (shifted active) self.old }
    {
        if let Some(row) = self.row(id) {
            let row = row::lower(&row, !active);
            self.revise(row::raise(&row, active));
        }
    }

    /// One more template names the server. Overload stays.
    /// An id that isn't there changes nothing.
    pub fn hold(&mut self, id: DestId)
        requires room { IfSome (row_at id self.old.rows) IsFarBelow }
        ensures { self.new ≡ change id held self.old }
    {
        if let Some(row) = self.row(id) {
            self.revise(row::hold(&row));
        }
    }

    /// One template less names the server. Overload stays.
    /// An id that isn't there changes nothing.
    pub fn unhold(&mut self, id: DestId)
        requires some { IfSome (row_at id self.old.rows) (λ row. 0 < row.templates) }
        ensures { self.new ≡ change id unheld self.old }
    {
        if let Some(row) = self.row(id) {
            self.revise(row::unhold(&row));
        }
    }
}
