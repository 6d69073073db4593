//! Entries come to their servers, and to the templates that made them.
ghost use Rattle.std.specs.Prelude.{◌≡◌, map};
ghost use Rattle.lvs_board.specs.Endings.{CanCome, CanControl, come_one, more_one};

use lvs_dests::Dests;
use lvs_states::is_active;
use lvs_templates::Templates;
use lvs_types::Entry;

/// The entry counts at its server, whose overload is looked at.
pub(crate) fn come_to_server(dests: &mut Dests, e: &Entry)
    requires { CanCome e.now dests.old.rows }
    ensures { dests.new ≡ record dests.old { rows = map (come_one e.now) dests.old.rows } }
{
    if let Some(id) = e.server {
        dests.bind(id, is_active(e.state));
    }
}

/// The entry counts at the template that made it.
pub(crate) fn come_to_template(templates: &mut Templates, e: &Entry)
    requires { CanControl e.now templates.old.rows }
    ensures rows { templates.new.rows ≡ map (more_one e.now) templates.old.rows }
    ensures spare { templates.new.spare ≡ templates.old.spare }
{
    if let Some(id) = e.template {
        templates.control(id);
    }
}
