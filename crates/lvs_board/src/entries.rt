//! The entry of the item on the desk: it is the change so far, and the running totals follow it.
ghost use Rattle.std.specs.Prelude.{◌≡◌, ◌+◌, ◌<◌, ◌^◌, Some, None};
ghost use Rattle.lvs_model.specs.Binding.{put_entry, bind_entry};
ghost use Rattle.lvs_model.specs.Incoming.{end_entry};
ghost use Rattle.lvs_rules.specs.Changes.{HaveSameNames, entered, appended};
ghost use Rattle.lvs_board.specs.Desks.{state_of, with_entry, IsSound, Holds, IsFree};

use crate::changing::{ending, entering, updating};
use crate::coming::{come_to_server, come_to_template};
use crate::desk::Desk;
use crate::leaving::{leave_server, leave_template};
use crate::moving::move_at_server;
use lvs_rules::{Whole, bound};
use lvs_types::{Dest, Entry};

impl Desk {
    /// Puts the entry of the item in its own place.
    pub(crate) fn put<W: Whole>(&mut self, before: &Entry, after: &Entry)
        requires sound { IsSound W.whole self.old }
        requires holds { Holds W.whole self.old before.now }
        requires names { HaveSameNames before.now after.now }
        ensures state { state_of W.whole self.new ≡ record (state_of W.whole self.old) { entries = put_entry after.now (state_of W.whole self.old).entries } }
        ensures sound { IsSound W.whole self.new }
        ensures holds { Holds W.whole self.new after.now }
        ensures rest { self.new ≡ record self.old { dests = self.new.dests; change = self.new.change } }
    {
        move_at_server(&mut self.dests, before, after);
        self.change = updating(&self.change, after);
    }

    /// The entry of the item leaves, and its server's overload is looked at.
    pub(crate) fn end<W: Whole>(&mut self, e: &Entry)
        requires sound { IsSound W.whole self.old }
        requires holds { Holds W.whole self.old e.now }
        ensures state { state_of W.whole self.new ≡ end_entry e.now (state_of W.whole self.old) }
        ensures sound { IsSound W.whole self.new }
        ensures free { IsFree self.new.change }
        ensures spare { self.new.templates.spare ≡ self.old.templates.spare }
        ensures rest { self.new ≡ record self.old { dests = self.new.dests; templates = self.new.templates; change = self.new.change } }
    {
        leave_server(&mut self.dests, e);
        leave_template(&mut self.templates, e);
        self.change = ending(&self.change, e.id);
    }

    /// The entry of the item, which is unbound, is bound to a server.
    pub(crate) fn bind<W: Whole>(&mut self, e: &Entry, d: &Dest) -> Entry
        requires sound { IsSound W.whole self.old }
        requires holds { Holds W.whole self.old e.now }
        requires unbound { e.now.server ≡ None }
        ensures bound { (result, state_of W.whole self.new) ≡ bind_entry (state_of W.whole self.old) e.now (Some d.now) }
        ensures sound { IsSound W.whole self.new }
        ensures holds { Holds W.whole self.new result }
        ensures rest { self.new ≡ record self.old { dests = self.new.dests; change = self.new.change } }
    {
        let after = bound(e, d);
        come_to_server(&mut self.dests, &after);
        self.change = updating(&self.change, &after);
        after
    }

    /// A new entry comes last, and counts at its server.
    pub(crate) fn enter_bound<W: Whole>(&mut self, e: &Entry, d: &Dest)
        requires sound { IsSound W.whole self.old }
        requires free { IsFree self.old.change }
        requires room { self.old.next_entry < 2 ^ 62 }
        requires server { e.now.server ≡ Some d.now.id }
        requires id { e.now.id ≡ self.old.next_entry }
        ensures state { state_of W.whole self.new ≡ entered e.now d.now.id (state_of W.whole self.old) }
        ensures sound { IsSound W.whole self.new }
        ensures change { self.new.change ≡ with_entry e.now self.old.change }
        ensures rest { self.new ≡ record self.old { dests = self.new.dests; templates = self.new.templates; next_entry = self.new.next_entry; change = self.new.change } }
    {
        come_to_server(&mut self.dests, e);
        come_to_template(&mut self.templates, e);
        self.change = entering(&self.change, e);
        self.next_entry += 1;
    }

    /// A new entry without a server comes last; it may be bound then.
    pub(crate) fn enter_free<W: Whole>(&mut self, e: &Entry)
        requires sound { IsSound W.whole self.old }
        requires free { IsFree self.old.change }
        requires room { self.old.next_entry < 2 ^ 62 }
        requires unbound { e.now.server ≡ None }
        requires id { e.now.id ≡ self.old.next_entry }
        ensures state { state_of W.whole self.new ≡ appended e.now (state_of W.whole self.old) }
        ensures sound { IsSound W.whole self.new }
        ensures holds { Holds W.whole self.new e.now }
        ensures rest { self.new ≡ record self.old { templates = self.new.templates; next_entry = self.new.next_entry; change = self.new.change } }
    {
        come_to_template(&mut self.templates, e);
        self.change = entering(&self.change, e);
        self.next_entry += 1;
    }
}
