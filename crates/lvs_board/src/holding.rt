//! Templates hold the servers that they name.
ghost use Rattle.std.specs.Prelude.{◌≡◌, map};
ghost use Rattle.lvs_board.specs.Held.{CanHold, CanUnhold, IsHeldAt, hold_one, unhold_one, unholds_row, held_by, newly_named};

use lvs_dests::Dests;
use lvs_types::{DestId, Template};

/// The server that a template names, if there is one.
pub(crate) fn server_held(t: Option<Template>) -> Option<DestId>
    ensures { result ≡ held_by t }
{
    match t {
        Some(t) => t.server,
        None => None,
    }
}

/// The server that a template names now and didn't name before, if there is one.
pub(crate) fn newly_held(before: &Template, after: &Template) -> Option<DestId>
    ensures { result ≡ newly_named before.now.server after.now.server }
{
    match before.server {
        None => after.server,
        Some(_) => None,
    }
}

/// One more template names the server. Its overload stays.
pub(crate) fn hold_server(dests: &mut Dests, server: Option<DestId>)
    requires { CanHold server dests.old.rows }
    ensures { dests.new ≡ record dests.old { rows = map (hold_one server) dests.old.rows } }
{
    if let Some(id) = server {
        dests.hold(id);
    }
}

/// One template less names the server. Its overload stays.
pub(crate) fn unhold_server(dests: &mut Dests, server: Option<DestId>)
    requires { IsHeldAt server dests.old.rows }
    ensures { dests.new ≡ record dests.old { rows = map (unhold_one server) dests.old.rows } }
{
    if let Some(id) = server {
        dests.unhold(id);
    }
}

/// Each of the templates lets go of its server, in order.
pub(crate) fn unhold_servers(dests: &mut Dests, gone: &[Template])
    requires { CanUnhold gone.now dests.old.rows }
    ensures { dests.new ≡ record dests.old { rows = map (unholds_row gone.now) dests.old.rows } }
{
    for t in gone {
        unhold_server(dests, t.server);
    }
}
