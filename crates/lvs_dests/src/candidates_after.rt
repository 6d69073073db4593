//! The candidates of a service as they would be after an event that hasn't come.
ghost use Rattle.std.specs.Prelude.{◌≡◌, ◌<◌, Some, IfOk, IfSome, IsSomeAnd};
ghost use Rattle.lvs_types.specs.declared.dest.DestRow.{DestRow};
ghost use Rattle.lvs_dests.specs.Rows.{row_at, change, named, bound, ended, candidates_of, IsFarBelow};
ghost use Rattle.lvs_dests.specs.Pool.{DifferInId};
ghost use Rattle.lvs_dests.specs.Dests.{IsRevision};

use crate::dests::Dests;
use crate::{lists, row};
use lvs_types::{Candidate, DestId, DestRow, NoMemory, ServiceKey};
use std::alloc::Global;

impl Dests {
    /// The live servers of a service as a scheduler would see them once an entry had been bound to
    /// the server of this id, which may be of any service or gone. Nothing changes.
    pub fn candidates_after_binding(
        &self,
        alloc: Global,
        service: &ServiceKey,
        id: DestId,
        active: bool,
    ) -> Result<Vec<Candidate>, NoMemory>
        requires room { IfSome (row_at id self.now.rows) IsFarBelow }
        ensures { IfOk result (λ v. v.items ≡ candidates_of service.now (change id (bound active) self.now).rows) }
    {
        match self.row(id) {
            Some(row) => {
                let row = row::raise(&row, active);
                self.candidates_with(alloc, service, &row::after_binding(&row))
            }
            None => self.copy_candidates(alloc, service),
        }
    }

    /// The live servers of a service as a scheduler would see them once an entry that names the
    /// server of this id had ended. Nothing changes.
    pub fn candidates_after_ending(
        &self,
        alloc: Global,
        service: &ServiceKey,
        id: DestId,
        active: bool,
    ) -> Result<Vec<Candidate>, NoMemory>
        requires some { IfSome (row_at id self.now.rows) (λ row. 0 < named active row) }
        ensures { IfOk result (λ v. v.items ≡ candidates_of service.now (change id (ended active) self.now).rows) }
    {
        match self.row(id) {
            Some(row) => {
                let row = row::lower(&row, active);
                self.candidates_with(alloc, service, &row::after_ending(&row))
            }
            None => self.copy_candidates(alloc, service),
        }
    }

    fn copy_candidates(
        &self,
        alloc: Global,
        service: &ServiceKey,
    ) -> Result<Vec<Candidate>, NoMemory>
        ensures { IfOk result (λ v. v.items ≡ candidates_of service.now self.now.rows) }
    {
        Ok(self.candidates(service).to_vec(alloc)?)
    }

    /// The live servers of a service with another content of one server.
    fn candidates_with(
        &self,
        alloc: Global,
        service: &ServiceKey,
        row: &DestRow,
    ) -> Result<Vec<Candidate>, NoMemory>
        requires apart { DifferInId self.now.rows }
        requires there { IsSomeAnd (row_at row.now.dest.id self.now.rows) (λ old. IsRevision old row.now) }
        ensures { (f : DestRow → DestRow) (old : DestRow) → row_at row.now.dest.id self.now.rows ≡ Some old → f old ≡ row.now → IfOk result (λ v. v.items ≡ candidates_of service.now (change row.now.dest.id f self.now).rows) }
    {
        let candidates = self.copy_candidates(alloc, service)?;
        Ok(lists::with_candidate(candidates, row::candidate(row)))
    }
}
