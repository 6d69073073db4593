//! The server that a service's scheduler picks.
ghost use Rattle.std.specs.Prelude.{◌≡◌, length, Option, ℕ};
ghost use Rattle.lvs_model.specs.LeastLoad.{AreWeighed};
ghost use Rattle.lvs_model.specs.AddressHash.{pick_sh, pick_dh};
ghost use Rattle.lvs_model.specs.MorePicks.{pick_mh};
ghost use Rattle.lvs_model.specs.Pick.{and_cursor, pick};

use lvs_sched_hash::{SlotTable, pick_slot};
use lvs_sched_load::{pick_lc, pick_nq, pick_sed, pick_wlc};
use lvs_sched_more::{MhTable, pick_fo, pick_mh, pick_ovf};
use lvs_sched_turn::{pick_rr, pick_wrr};
use lvs_types::{Addr, Candidate, Cursor, Scheduler};

/// A pick that leaves the cursor.
fn with_cursor(cursor: &Cursor, place: Option<usize>) -> Option<(usize, Cursor)>
    ensures { result ≡ and_cursor cursor.now place }
{
    match place {
        None => None,
        Some(place) => Some((place, *cursor)),
    }
}

fn by_source(servers: &[Candidate], source: Addr) -> Option<usize>
    ensures { result ≡ pick_sh servers.now source }
{
    pick_slot(&SlotTable::of_sh(servers), servers, source)
}

fn by_destination(servers: &[Candidate], destination: Addr) -> Option<usize>
    ensures { result ≡ pick_dh servers.now destination }
{
    pick_slot(&SlotTable::of_dh(servers), servers, destination)
}

fn by_maglev(servers: &[Candidate], addrs: &[Addr], source: Addr) -> Option<usize>
    requires { length addrs.now ≡ length servers.now }
    ensures { result ≡ pick_mh servers.now addrs.now source }
{
    pick_mh(&MhTable::of(servers, addrs), servers, source)
}

/// The place of the picked server among the service's, and the cursor that is left.
pub(crate) fn pick_server(
    scheduler: Scheduler,
    servers: &[Candidate],
    addrs: &[Addr],
    cursor: &Cursor,
    source: Addr,
    destination: Addr,
) -> Option<(usize, Cursor)>
    requires weighed { AreWeighed servers.now }
    requires addrs { length addrs.now ≡ length servers.now }
    ensures { result ≡ pick scheduler servers.now addrs.now cursor.now source destination }
{
    match scheduler {
        Scheduler::Rr => pick_rr(servers, cursor),
        Scheduler::Wrr => pick_wrr(servers, cursor),
        Scheduler::Lc => with_cursor(cursor, pick_lc(servers)),
        Scheduler::Wlc => with_cursor(cursor, pick_wlc(servers)),
        Scheduler::Sed => with_cursor(cursor, pick_sed(servers)),
        Scheduler::Nq => with_cursor(cursor, pick_nq(servers)),
        Scheduler::Sh => with_cursor(cursor, by_source(servers, source)),
        Scheduler::Dh => with_cursor(cursor, by_destination(servers, destination)),
        Scheduler::Fo => with_cursor(cursor, pick_fo(servers)),
        Scheduler::Ovf => with_cursor(cursor, pick_ovf(servers)),
        Scheduler::Mh => with_cursor(cursor, by_maglev(servers, addrs, source)),
    }
}
