//! Entries leave their servers, and the templates that made them.
ghost use Rattle.std.specs.Prelude.{◌≡◌, map};
ghost use Rattle.lvs_board.specs.Endings.{IsCountedAt, CanLeave, end_one, ends_row, IsControlledAt, CanLessen, less_one, lessens_row};

use lvs_dests::Dests;
use lvs_states::is_active;
use lvs_templates::Templates;
use lvs_types::Entry;

/// The entry leaves its server, whose overload is looked at.
pub(crate) fn leave_server(dests: &mut Dests, e: &Entry)
    requires { IsCountedAt e.now dests.old.rows }
    ensures { dests.new ≡ record dests.old { rows = map (end_one e.now) dests.old.rows } }
{
    if let Some(id) = e.server {
        dests.unbind(id, is_active(e.state));
    }
}

/// The entry leaves the template that made it.
pub(crate) fn leave_template(templates: &mut Templates, e: &Entry)
    requires { IsControlledAt e.now templates.old.rows }
    ensures rows { templates.new.rows ≡ map (less_one e.now) templates.old.rows }
    ensures spare { templates.new.spare ≡ templates.old.spare }
{
    if let Some(id) = e.template {
        templates.uncontrol(id);
    }
}

/// Each of the entries leaves its server, in order.
pub(crate) fn leave_servers(dests: &mut Dests, due: &[Entry])
    requires { CanLeave due.now dests.old.rows }
    ensures { dests.new ≡ record dests.old { rows = map (ends_row due.now) dests.old.rows } }
{
    for e in due {
        leave_server(dests, e);
    }
}

/// Each of the entries leaves the template that made it.
pub(crate) fn leave_templates(templates: &mut Templates, due: &[Entry])
    requires { CanLessen due.now templates.old.rows }
    ensures rows { templates.new.rows ≡ map (lessens_row due.now) templates.old.rows }
    ensures spare { templates.new.spare ≡ templates.old.spare }
{
    for e in due {
        leave_template(templates, e);
    }
}
