//! Worked runs of thresholds, removal and revival, weight 0 and release, as lists of calls, and the
//! refusals in their order.
ghost use Rattle.std.specs.Prelude.{◌≡◌, ◌&&◌, nat_lt};

use crate::{DestRefused, Dests, Removed, Totals};
use lvs_types::{Addr, Candidate, DestId, DestRow, DestSpec, Method, NoMemory, Proto, ServiceKey};
use std::alloc::Global;
use std::test::Fail;

const WEB: ServiceKey = ServiceKey::Net {
    proto: Proto::Tcp,
    addr: Addr {
        number: 0x0A00_0001,
    },
    port: 80,
};

const MARKED: ServiceKey = ServiceKey::Mark(0x0A00_0001);

/// 192.168.0.1
const A: Addr = Addr {
    number: 0xC0A8_0001,
};

/// 192.168.0.2
const B: Addr = Addr {
    number: 0xC0A8_0002,
};

const fn server(addr: Addr) -> DestSpec {
    DestSpec {
        addr,
        port: 80,
        method: Method::Direct,
        weight: 1,
        upper: 0,
        lower: 0,
    }
}

const fn with_thresholds(upper: u32, lower: u32) -> DestSpec {
    DestSpec {
        upper,
        lower,
        ..server(A)
    }
}

/// Adds a server, as long as ids are far from their type's end.
fn add(dests: &mut Dests, service: &ServiceKey, spec: &DestSpec) -> Result<DestId, DestRefused> {
    if dests.next < 1000 {
        dests.add(service, spec)
    } else {
        Err(DestRefused::NoMemory)
    }
}

/// Whether one more fits at the server.
fn has_room(row: &DestRow) -> bool
    ensures { result ≡ (nat_lt row.now.active 1000 && nat_lt row.now.inactive 1000 && nat_lt row.now.templates 1000) }
{
    row.active < 1000 && row.inactive < 1000 && row.templates < 1000
}

/// Binds an entry to a server that is there.
fn bind(dests: &mut Dests, id: DestId, active: bool) {
    if let Some(row) = dests.row(id) {
        if has_room(&row) {
            dests.bind(id, active);
        }
    }
}

/// Ends an entry, active or not, of a server that has one.
fn unbind(dests: &mut Dests, id: DestId, active: bool) {
    if let Some(row) = dests.row(id) {
        if active && 0 < row.active {
            dests.unbind(id, true);
        }
        if !active && 0 < row.inactive {
            dests.unbind(id, false);
        }
    }
}

/// An inactive entry of a server becomes active.
fn activate(dests: &mut Dests, id: DestId) {
    if let Some(row) = dests.row(id) {
        if has_room(&row) && 0 < row.inactive {
            dests.shift(id, true);
        }
    }
}

/// A template names a server that is there.
fn hold(dests: &mut Dests, id: DestId) {
    if let Some(row) = dests.row(id) {
        if has_room(&row) {
            dests.hold(id);
        }
    }
}

/// A template of a server ends.
fn unhold(dests: &mut Dests, id: DestId) {
    if let Some(row) = dests.row(id) {
        if 0 < row.templates {
            dests.unhold(id);
        }
    }
}

/// The web service's servers once an active entry had been bound to a server that is there.
fn with_one_more(alloc: Global, dests: &Dests, id: DestId) -> Result<Vec<Candidate>, NoMemory> {
    if let Some(row) = dests.row(id) {
        if has_room(&row) {
            return dests.candidates_after_binding(alloc, &WEB, id, true);
        }
    }
    Ok(Vec::new(alloc))
}

/// The web service's servers once an active entry of a server that has one had ended.
fn with_one_less(alloc: Global, dests: &Dests, id: DestId) -> Result<Vec<Candidate>, NoMemory> {
    if let Some(row) = dests.row(id) {
        if 0 < row.active {
            return dests.candidates_after_ending(alloc, &WEB, id, true);
        }
    }
    Ok(Vec::new(alloc))
}

/// The active connections of the first server, and whether it is eligible.
fn first(candidates: &[Candidate]) -> Option<(u64, bool)> {
    candidates.first().map(|c| (c.active, c.eligible))
}

/// The eligible servers of the web service.
fn eligible(dests: &Dests) -> usize {
    dests.candidates(&WEB).iter().filter(|c| c.eligible).count()
}

#[test]
fn four_connections_overload_and_two_relieve(rt: HostRuntime) -> Result<(), Fail> {
    let mut dests = Dests::new(rt.alloc())?;
    assert_eq!(rt;
        add(&mut dests, &WEB, &with_thresholds(4, 0)),
        Ok(DestId(1))
    );
    for expected in [1, 1, 1, 0] {
        bind(&mut dests, DestId(1), false);
        assert_eq!(rt; eligible(&dests), expected);
    }
    unbind(&mut dests, DestId(1), false);
    assert_eq!(rt; eligible(&dests), 0);
    unbind(&mut dests, DestId(1), false);
    assert_eq!(rt; eligible(&dests), 1);
    Ok(())
}

/// Each row: the thresholds, and after 4, 3, 2, 1 and 0 connections whether the server is
/// overloaded.
#[test]
fn a_table_of_totals_around_each_threshold(rt: HostRuntime) -> Result<(), Fail> {
    let rows = [
        (4, 0, [true, true, false, false, false]),
        (4, 2, [true, true, true, false, false]),
        (4, 4, [true, false, false, false, false]),
        (5, 0, [false, false, false, false, false]),
        (3, 0, [true, true, false, false, false]),
        (1, 1, [true, true, true, true, false]),
    ];
    for (upper, lower, expected) in rows {
        let mut dests = Dests::new(rt.alloc())?;
        assert_eq!(rt;
            add(&mut dests, &WEB, &with_thresholds(upper, lower)),
            Ok(DestId(1))
        );
        for _ in 0..4 {
            bind(&mut dests, DestId(1), true);
        }
        for (ended, overloaded) in expected.iter().enumerate() {
            let found = dests.get(DestId(1)).map(|d| d.overloaded);
            assert_eq!(rt; found, Some(*overloaded), "{upper} {lower} after {ended}");
            if ended < 4 {
                unbind(&mut dests, DestId(1), true);
            }
        }
    }
    Ok(())
}

#[test]
fn without_an_upper_threshold_it_is_cleared_at_once(rt: HostRuntime) -> Result<(), Fail> {
    let mut dests = Dests::new(rt.alloc())?;
    assert_eq!(rt;
        add(&mut dests, &WEB, &with_thresholds(2, 0)),
        Ok(DestId(1))
    );
    for _ in 0..3 {
        bind(&mut dests, DestId(1), false);
    }
    assert_eq!(rt; eligible(&dests), 0);
    assert_eq!(rt; dests.edit(&WEB, &with_thresholds(0, 0)), Ok(()));
    assert_eq!(rt; eligible(&dests), 1);
    assert_eq!(rt; dests.edit(&WEB, &with_thresholds(3, 0)), Ok(()));
    assert_eq!(rt; eligible(&dests), 0);
    Ok(())
}

#[test]
fn templates_never_change_overload(rt: HostRuntime) -> Result<(), Fail> {
    let mut dests = Dests::new(rt.alloc())?;
    assert_eq!(rt;
        add(&mut dests, &WEB, &with_thresholds(1, 0)),
        Ok(DestId(1))
    );
    hold(&mut dests, DestId(1));
    assert_eq!(rt; eligible(&dests), 1);
    bind(&mut dests, DestId(1), false);
    assert_eq!(rt; eligible(&dests), 0);
    unhold(&mut dests, DestId(1));
    activate(&mut dests, DestId(1));
    assert_eq!(rt; eligible(&dests), 0);
    let expected = Totals {
        active: 1,
        inactive: 0,
        templates: 0,
    };
    assert_eq!(rt; dests.totals(DestId(1)), Some(expected));
    Ok(())
}

#[test]
fn a_removed_server_that_is_named_comes_back_with_its_id(rt: HostRuntime) -> Result<(), Fail> {
    let mut dests = Dests::new(rt.alloc())?;
    assert_eq!(rt; add(&mut dests, &WEB, &server(A)), Ok(DestId(1)));
    assert_eq!(rt; add(&mut dests, &WEB, &server(B)), Ok(DestId(2)));
    bind(&mut dests, DestId(1), false);
    assert_eq!(rt; dests.remove(&WEB, A, 80), Ok(Removed::Trashed));
    assert_eq!(rt; dests.get(DestId(1)).map(|d| d.live), Some(false));
    assert_eq!(rt; dests.candidates(&WEB).len(), 1);
    assert!(rt; dests.find(&WEB, A, 80, 80).is_none());
    assert_eq!(rt; dests.trash(rt.alloc())?.first().copied(), Some(DestId(1)));
    assert_eq!(rt; add(&mut dests, &WEB, &server(A)), Ok(DestId(1)));
    assert_eq!(rt; dests.totals(DestId(1)).map(|t| t.inactive), Some(1));
    assert_eq!(rt;
        dests.candidates(&WEB).last().map(|c| c.id),
        Some(DestId(1))
    );
    assert_eq!(rt; dests.find(&WEB, A, 80, 80).map(|d| d.id), Some(DestId(1)));
    assert_eq!(rt; dests.remove(&WEB, B, 80), Ok(Removed::Released));
    assert_eq!(rt; add(&mut dests, &WEB, &server(B)), Ok(DestId(3)));
    assert!(rt; dests.get(DestId(2)).is_none());
    Ok(())
}

#[test]
fn weight_0_keeps_the_server_and_picks_it_no_more(rt: HostRuntime) -> Result<(), Fail> {
    let mut dests = Dests::new(rt.alloc())?;
    assert_eq!(rt; add(&mut dests, &WEB, &server(A)), Ok(DestId(1)));
    bind(&mut dests, DestId(1), true);
    let quiesced = DestSpec {
        weight: 0,
        ..server(A)
    };
    assert_eq!(rt; dests.edit(&WEB, &quiesced), Ok(()));
    assert_eq!(rt; eligible(&dests), 0);
    assert_eq!(rt; dests.get(DestId(1)).map(|d| d.live), Some(true));
    assert_eq!(rt; dests.totals(DestId(1)).map(|t| t.active), Some(1));
    Ok(())
}

#[test]
fn a_trashed_server_is_released_once_nothing_names_it(rt: HostRuntime) -> Result<(), Fail> {
    let mut dests = Dests::new(rt.alloc())?;
    assert_eq!(rt; add(&mut dests, &WEB, &server(A)), Ok(DestId(1)));
    assert_eq!(rt; add(&mut dests, &WEB, &server(B)), Ok(DestId(2)));
    bind(&mut dests, DestId(1), false);
    hold(&mut dests, DestId(1));
    assert_eq!(rt; dests.remove(&WEB, A, 80), Ok(Removed::Trashed));
    assert_eq!(rt; dests.reap(), 0);
    unbind(&mut dests, DestId(1), false);
    assert_eq!(rt; dests.reap(), 0);
    unhold(&mut dests, DestId(1));
    assert_eq!(rt; dests.reap(), 1);
    assert!(rt; dests.get(DestId(1)).is_none());
    assert_eq!(rt; dests.get(DestId(2)).map(|d| d.live), Some(true));
    assert_eq!(rt; dests.trash(rt.alloc())?.len(), 0);
    Ok(())
}

#[test]
fn refusals_come_in_their_order(rt: HostRuntime) -> Result<(), Fail> {
    let mut dests = Dests::new(rt.alloc())?;
    let crossed = with_thresholds(2, 3);
    assert_eq!(rt;
        add(&mut dests, &WEB, &crossed),
        Err(DestRefused::Thresholds)
    );
    assert_eq!(rt; dests.edit(&WEB, &crossed), Err(DestRefused::NoDest));
    assert_eq!(rt; dests.remove(&WEB, A, 80), Err(DestRefused::NoDest));
    assert_eq!(rt; add(&mut dests, &WEB, &server(A)), Ok(DestId(1)));
    assert_eq!(rt; add(&mut dests, &WEB, &crossed), Err(DestRefused::Exists));
    assert_eq!(rt; dests.edit(&WEB, &crossed), Err(DestRefused::Thresholds));
    assert_eq!(rt; add(&mut dests, &MARKED, &server(A)), Ok(DestId(2)));
    assert_eq!(rt; dests.remove(&MARKED, A, 81), Err(DestRefused::NoDest));
    Ok(())
}

#[test]
fn an_event_to_come_is_told_and_changes_nothing(rt: HostRuntime) -> Result<(), Fail> {
    let alloc = rt.alloc();
    let mut dests = Dests::new(alloc)?;
    assert_eq!(rt;
        add(&mut dests, &WEB, &with_thresholds(1, 0)),
        Ok(DestId(1))
    );
    let bound = with_one_more(alloc, &dests, DestId(1))?;
    assert_eq!(rt; first(&bound), Some((1, false)));
    assert_eq!(rt; first(dests.candidates(&WEB)), Some((0, true)));
    bind(&mut dests, DestId(1), true);
    let ended = with_one_less(alloc, &dests, DestId(1))?;
    assert_eq!(rt; first(&ended), Some((0, true)));
    assert_eq!(rt; first(dests.candidates(&WEB)), Some((1, false)));
    Ok(())
}

/// The ids of some servers, and how many connections they have.
fn shown(rows: &[DestRow]) -> [Option<(DestId, u64)>; 3] {
    let each = |place: usize| rows.get(place).map(|row| (row.dest.id, row.active));
    [each(0), each(1), each(2)]
}

#[test]
fn a_listing_shows_the_live_by_service_and_the_trash_by_id(rt: HostRuntime) -> Result<(), Fail> {
    let alloc = rt.alloc();
    let mut dests = Dests::new(alloc)?;
    assert_eq!(rt; add(&mut dests, &WEB, &server(B)), Ok(DestId(1)));
    assert_eq!(rt; add(&mut dests, &MARKED, &server(A)), Ok(DestId(2)));
    assert_eq!(rt; add(&mut dests, &WEB, &server(A)), Ok(DestId(3)));
    bind(&mut dests, DestId(1), true);
    bind(&mut dests, DestId(3), true);
    assert_eq!(rt; dests.len(), 3);
    let mut rows = Vec::new(alloc);
    dests.push_live(&WEB, &mut rows)?;
    assert_eq!(rt;
        shown(&rows),
        [Some((DestId(1), 1)), Some((DestId(3), 1)), None]
    );
    dests.remove_all();
    assert_eq!(rt; dests.len(), 2);
    let trashed = dests.trashed(alloc)?;
    assert_eq!(rt;
        shown(&trashed),
        [Some((DestId(1), 1)), Some((DestId(3), 1)), None]
    );
    assert_eq!(rt; dests.candidates(&WEB).len(), 0);
    Ok(())
}
