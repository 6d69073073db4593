//! A server with its three numbers, and what each event makes of it.
ghost use Rattle.std.specs.Prelude.{◌≡◌, ◌+◌, ◌<◌, ◌^◌};
ghost use Rattle.lvs_model.specs.Overload.{is_reached, is_relieved};
ghost use Rattle.lvs_model.specs.Binding.{serves_at};
ghost use Rattle.lvs_model.specs.Counts.{is_eligible};
ghost use Rattle.lvs_dests.specs.Rows.{row_total, is_unnamed, new_row, revived_row, respecified_row, out_of_service, raised, lowered, named, look_bound, look_ended, held, unheld, candidate_of_row, totals_of};

use crate::totals::Totals;
use lvs_types::{Addr, Candidate, Dest, DestId, DestRow, DestSpec, ServiceKey};

/// How many entries name the server. Two numbers of 64 bits stay far below the end of 128.
pub(crate) fn total(row: &DestRow) -> u128
    ensures value { result ≡ row_total row.now }
    ensures small { result < 2 ^ 65 }
{
    row.active as u128 + row.inactive as u128
}

/// Whether no entry and no template names the server.
pub(crate) fn is_free(row: &DestRow) -> bool
    ensures { result ≡ is_unnamed row.now }
{
    row.active == 0 && row.inactive == 0 && row.templates == 0
}

/// Whether so many connections reach the upper threshold.
fn reaches(spec: &DestSpec, total: u128) -> bool
    ensures { result ≡ is_reached spec.now total }
{
    spec.upper > 0 && spec.upper as u128 <= total
}

/// Whether so many connections are few enough for an overloaded server.
fn relieves(spec: &DestSpec, total: u128) -> bool
    requires { total < 2 ^ 65 }
    ensures { result ≡ is_relieved spec.now total }
{
    spec.upper == 0
        || (spec.lower > 0 && total < spec.lower as u128)
        || (spec.lower == 0 && spec.upper > 0 && 4 * total < 3 * spec.upper as u128)
}

/// A new server, which nothing names.
pub(crate) fn make(id: DestId, service: &ServiceKey, spec: &DestSpec) -> DestRow
    ensures { result ≡ new_row id service.now spec.now }
{
    DestRow {
        dest: Dest {
            id,
            service: *service,
            spec: *spec,
            overloaded: reaches(spec, 0),
            live: true,
        },
        active: 0,
        inactive: 0,
        templates: 0,
    }
}

/// The server with another specification, live as before.
pub(crate) fn respecify(row: &DestRow, spec: &DestSpec) -> DestRow
    ensures { result ≡ respecified_row spec.now row.now }
{
    DestRow {
        dest: Dest {
            spec: *spec,
            overloaded: reaches(spec, total(row)),
            ..row.dest
        },
        ..*row
    }
}

/// The server taken back from the trash.
pub(crate) fn revive(row: &DestRow, spec: &DestSpec) -> DestRow
    ensures { result ≡ revived_row spec.now row.now }
{
    let mut row = respecify(row, spec);
    row.dest.live = true;
    row
}

/// The server in the trash.
pub(crate) fn trash(row: &DestRow) -> DestRow
    ensures { result ≡ out_of_service row.now }
{
    let mut row = *row;
    row.dest.live = false;
    row
}

/// One more entry names the server.
pub(crate) fn raise(row: &DestRow, active: bool) -> DestRow
    requires active { row.now.active < 2 ^ 62 }
    requires inactive { row.now.inactive < 2 ^ 62 }
    ensures { result ≡ raised active row.now }
{
    let mut row = *row;
    if active {
        row.active += 1;
    } else {
        row.inactive += 1;
    }
    row
}

/// One entry less names the server.
pub(crate) fn lower(row: &DestRow, active: bool) -> DestRow
    requires { 0 < named active row.now }
    ensures { result ≡ lowered active row.now }
{
    let mut row = *row;
    if active {
        row.active -= 1;
    } else {
        row.inactive -= 1;
    }
    row
}

/// The overload once an entry was bound.
pub(crate) fn after_binding(row: &DestRow) -> DestRow
    ensures { result ≡ look_bound row.now }
{
    let mut after = *row;
    after.dest.overloaded = row.dest.overloaded || reaches(&row.dest.spec, total(row));
    after
}

/// The overload once an entry that named the server was ended.
pub(crate) fn after_ending(row: &DestRow) -> DestRow
    ensures { result ≡ look_ended row.now }
{
    let mut after = *row;
    if relieves(&row.dest.spec, total(row)) {
        after.dest.overloaded = false;
    }
    after
}

/// One more template names the server.
pub(crate) fn hold(row: &DestRow) -> DestRow
    requires { row.now.templates < 2 ^ 62 }
    ensures { result ≡ held row.now }
{
    let mut row = *row;
    row.templates += 1;
    row
}

/// One template less names the server.
pub(crate) fn unhold(row: &DestRow) -> DestRow
    requires { 0 < row.now.templates }
    ensures { result ≡ unheld row.now }
{
    let mut row = *row;
    row.templates -= 1;
    row
}

/// The server as a scheduler sees it.
pub(crate) fn candidate(row: &DestRow) -> Candidate
    ensures { result ≡ candidate_of_row row.now }
{
    let dest = &row.dest;
    Candidate {
        id: dest.id,
        weight: dest.spec.weight,
        active: row.active,
        inactive: row.inactive,
        eligible: dest.live && dest.spec.weight > 0 && !dest.overloaded,
    }
}

/// Whether the server takes connections to the address and port, the virtual port being this one.
pub(crate) fn serves(row: &DestRow, daddr: Addr, dport: u16, vport: u16) -> bool
    ensures { result ≡ serves_at daddr dport vport row.now.dest }
{
    let spec = &row.dest.spec;
    spec.addr == daddr && (spec.port == dport || (spec.port == 0 && dport == vport))
}

/// The three numbers.
pub(crate) fn totals(row: &DestRow) -> Totals
    ensures { result ≡ totals_of row.now }
{
    Totals {
        active: row.active,
        inactive: row.inactive,
        templates: row.templates,
    }
}
