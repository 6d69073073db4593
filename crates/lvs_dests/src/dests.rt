//! The servers of all services, live and trashed.
ghost use Rattle.std.specs.Prelude.{◌≡◌, [], IfOk};
ghost use Rattle.std.specs.Option.{option_map, option_copied};
ghost use Rattle.lvs_types.specs.declared.dest.DestRow.{DestRow};
ghost use Rattle.lvs_dests.specs.Rows.{row_at, totals_of, serving, candidates_of, AreWellFormed};

use crate::lists::Lists;
use crate::place::ServiceName;
use crate::pool::Pool;
use crate::row;
use crate::serving::first_serving;
use crate::totals::Totals;
use lvs_types::{Addr, Candidate, Dest, DestId, NoMemory, ServiceKey};
use std::alloc::Global;
use std::marker::Model;

/// Servers in order of addition or revival, each with how many entries and templates name it.
#[derive(Debug, Drop)]
pub struct Dests {
    pub(crate) alloc: Global,
    pub(crate) pool: Pool,
    pub(crate) lists: Lists,
    /// The id of the next new server, from 1 on.
    pub(crate) next: u64,
}

impl Model for Dests {
    ghost use Rattle.lvs_dests.specs.Rows.{DestsSeen};
    ghost use Rattle.lvs_dests.specs.Pool.{rows_of};
    ghost use Rattle.lvs_dests.specs.Dests.{IsTied};

    ghost Value = { DestsSeen };

    ghost view = { λ d. record { rows = rows_of d.pool; next = d.next } };

    ghost invariant = { λ d. IsTied d.pool d.lists d.next };
}

impl Dests {
    /// No servers.
    pub fn new(alloc: Global) -> Result<Dests, NoMemory>
        ensures rows { IfOk result (λ d. d.rows ≡ []) }
        ensures next { IfOk result (λ d. d.next ≡ 1) }
    {
        Ok(Dests {
            alloc,
            pool: Pool::new(alloc),
            lists: Lists::new(alloc),
            next: 1,
        })
    }

    /// The server of an id, live or in the trash. The ids of all servers are apart and below the
    /// next one, and no two stand at one place.
    pub fn get(&self, id: DestId) -> Option<&Dest>
        ensures well_formed { AreWellFormed self.now }
        ensures dest { option_copied result ≡ option_map (λ (row : DestRow). row.dest) (row_at id self.now.rows) }
    {
        match self.pool.get(id) {
            Some(row) => Some(&row.dest),
            None => None,
        }
    }

    /// The three numbers of the server of an id, live or in the trash.
    pub fn totals(&self, id: DestId) -> Option<Totals>
        ensures { result ≡ option_map totals_of (row_at id self.now.rows) }
    {
        match self.pool.get(id) {
            Some(row) => Some(row::totals(row)),
            None => None,
        }
    }

    /// The first live server of a service, in order of addition, at this address and either this
    /// port, or port 0 where this port is the virtual one.
    pub fn find(&self, service: &ServiceKey, daddr: Addr, dport: u16, vport: u16) -> Option<&Dest>
        ensures { option_copied result ≡ serving service.now daddr dport vport self.now.rows }
    {
        let candidates = self.lists.of(&ServiceName::of(service));
        first_serving(&self.pool, candidates, daddr, dport, vport)
    }

    /// The live servers of a service, in order of addition, as a scheduler sees them. The ids of
    /// all servers are apart and below the next one, and no two stand at one place.
    pub fn candidates(&self, service: &ServiceKey) -> &[Candidate]
        ensures candidates { result.now ≡ candidates_of service.now self.now.rows }
        ensures well_formed { AreWellFormed self.now }
    {
        self.lists.of(&ServiceName::of(service))
    }
}
