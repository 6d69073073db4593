//! What a listing shows of all servers: the live ones of each service, and those in the trash.
ghost use Rattle.std.specs.Prelude.{◌≡◌, ◌==◌, ◌≤◌, ◌++◌, ℕ, [], length, count_by, filter_map, IfOk, OnOk};
ghost use Rattle.std.specs.List.{filter, cons_option};
ghost use Rattle.lvs_types.specs.declared.dest.DestRow.{DestRow};
ghost use Rattle.lvs_model.specs.Lists.{sorted_by};
ghost use Rattle.lvs_dests.specs.Rows.{row_at, is_row_of, is_row_trashed};
ghost use Rattle.lvs_dests.specs.Pool.{IsWhole, rows_of, slot_at, trashed_row_in};
ghost use Rattle.lvs_dests.specs.Serving.{rows_at};

use crate::dests::Dests;
use crate::place::ServiceName;
use crate::pool::Pool;
use lvs_types::{Candidate, DestId, DestRow, NoMemory, ServiceKey};
use std::alloc::Global;

/// The servers by id, where no two have one id.
fn sort_rows(mut rows: Vec<DestRow>) -> Vec<DestRow>
    requires once { (n : ℕ) → count_by (λ (row : DestRow). row.dest.id.0 == n) rows.items ≤ 1 }
    ensures { result.items ≡ sorted_by (λ (row : DestRow). row.dest.id.0) rows.items }
{
    rows.sort_unstable_by_key(|row| row.dest.id.0);
    rows
}

/// Appends a server, where there is one.
fn append(rows: &mut Vec<DestRow>, row: Option<DestRow>) -> Result<(), NoMemory>
    ensures { OnOk result (rows.new.items ≡ rows.old.items ++ cons_option row []) }
{
    if let Some(row) = row {
        rows.push(row)?;
    }
    Ok(())
}

impl Pool {
    /// How many servers there are.
    fn len(&self) -> usize
        ensures { result ≡ length (rows_of self.now) }
    {
        self.slab.len()
    }

    /// The server under a key, where it stands in the trash.
    fn trashed_row(&self, key: usize) -> Option<DestRow>
        ensures { result ≡ trashed_row_in (slot_at self.now key) }
    {
        let slot = self.slab.get(key)?;
        if slot.row.dest.live {
            None
        } else {
            Some(slot.row)
        }
    }

    /// The servers in the trash, in the order of the slab.
    fn collect_trashed(&self, alloc: Global) -> Result<Vec<DestRow>, NoMemory>
        ensures { IfOk result (λ rows. rows.items ≡ filter_map trashed_row_in self.now.slab.slots) }
    {
        let mut rows = Vec::new(alloc);
        for key in 0..self.slab.capacity() {
            append(&mut rows, self.trashed_row(key))?;
        }
        Ok(rows)
    }

    /// The servers in the trash, by id.
    fn trashed(&self, alloc: Global) -> Result<Vec<DestRow>, NoMemory>
        requires { IsWhole self.now }
        ensures { IfOk result (λ rows. rows.items ≡ sorted_by (λ (row : DestRow). row.dest.id.0) (filter is_row_trashed (rows_of self.now))) }
    {
        Ok(sort_rows(self.collect_trashed(alloc)?))
    }

    /// The server of an id.
    fn row(&self, id: DestId) -> Option<DestRow>
        requires { IsWhole self.now }
        ensures { result ≡ row_at id (rows_of self.now) }
    {
        self.get(id).copied()
    }
}

/// Appends the servers of some candidates.
fn append_each(
    pool: &Pool,
    candidates: &[Candidate],
    rows: &mut Vec<DestRow>,
) -> Result<(), NoMemory>
    requires { IsWhole pool.now }
    ensures { OnOk result (rows.new.items ≡ rows.old.items ++ rows_at (rows_of pool.now) candidates.now) }
{
    for candidate in candidates {
        append(rows, pool.row(candidate.id))?;
    }
    Ok(())
}

impl Dests {
    /// How many servers there are, live and in the trash.
    pub fn len(&self) -> usize
        ensures { result ≡ length self.now.rows }
    {
        self.pool.len()
    }

    /// Appends the live servers of a service, in order of addition, each with its three numbers.
    pub fn push_live(&self, service: &ServiceKey, rows: &mut Vec<DestRow>) -> Result<(), NoMemory>
        ensures { OnOk result (rows.new.items ≡ rows.old.items ++ filter (is_row_of service.now) self.now.rows) }
    {
        let candidates = self.lists.of(&ServiceName::of(service));
        append_each(&self.pool, candidates, rows)
    }

    /// The servers in the trash, by id, each with its three numbers.
    pub fn trashed(&self, alloc: Global) -> Result<Vec<DestRow>, NoMemory>
        ensures { IfOk result (λ rows. rows.items ≡ sorted_by (λ (row : DestRow). row.dest.id.0) (filter is_row_trashed self.now.rows)) }
    {
        self.pool.trashed(alloc)
    }
}
