//! An entry goes on at its server.
ghost use Rattle.std.specs.Prelude.{◌≡◌, List, Some, map};
ghost use Rattle.std.specs.List.{find};
ghost use Rattle.lvs_types.specs.declared.dest.Dest.{Dest};
ghost use Rattle.lvs_types.specs.declared.entry.Entry.{Entry};
ghost use Rattle.lvs_types.specs.declared.template.Template.{Template};
ghost use Rattle.lvs_model.specs.Binding.{put_entry};
ghost use Rattle.lvs_model.specs.Counts.{row_of};
ghost use Rattle.lvs_model.specs.Lookups.{has_entry_id};
ghost use Rattle.lvs_board.specs.Endings.{CanMove};

use lvs_dests::Dests;
use lvs_states::is_active;
use lvs_types::Entry;

/// The entry became another one at the same server: it counts in the number of its state.
pub(crate) fn move_at_server(dests: &mut Dests, before: &Entry, after: &Entry)
    requires can { CanMove before.now after.now dests.old.rows }
    requires server { after.now.server ≡ before.now.server }
    ensures { (es : List Entry) (ts : List Template) (ds : List Dest) → dests.old.rows ≡ map (row_of es ts) ds → find (has_entry_id after.now.id) es ≡ Some before.now → dests.new ≡ record dests.old { rows = map (row_of (put_entry after.now es) ts) ds } }
{
    if let Some(id) = after.server {
        let active = is_active(after.state);
        if is_active(before.state) != active {
            dests.shift(id, active);
        }
    }
}
