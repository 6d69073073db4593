//! The walk over the whole pool: servers in the trash, and those of them that nothing names.
ghost use Rattle.std.specs.Prelude.{◌≡◌, ◌++◌, [], count_by, IfOk, OnOk};
ghost use Rattle.lvs_model.specs.Lists.{without};
ghost use Rattle.std.specs.List.{cons_option};
ghost use Rattle.lvs_dests.specs.Rows.{is_row_released, IsTrashOf};
ghost use Rattle.lvs_dests.specs.Pool.{IsWhole, rows_of, slot_at, is_over_at, trashed_in, trashed_of};

use crate::pool::Pool;
use crate::row;
use lvs_types::{DestId, NoMemory};
use std::alloc::Global;

impl Pool {
    /// Whether a server in the trash that nothing names is under the key.
    fn is_over(&self, key: usize) -> bool
        ensures { result ≡ is_over_at (slot_at self.now key) }
    {
        match self.slab.get(key) {
            Some(slot) => !slot.row.dest.live && row::is_free(&slot.row),
            None => false,
        }
    }

    /// Releases the servers in the trash that nothing names, and tells how many.
    pub(crate) fn reap(&mut self) -> u64
        requires whole { IsWhole self.old }
        ensures whole { IsWhole self.new }
        ensures count { result ≡ count_by is_row_released (rows_of self.old) }
        ensures rows { rows_of self.new ≡ without is_row_released (rows_of self.old) }
    {
        let mut gone = 0;
        for key in 0..self.slab.capacity() {
            if self.is_over(key) {
                self.release(key);
                gone += 1;
            }
        }
        gone
    }

    /// The id of the server under a key, where it stands in the trash.
    fn trashed_at(&self, key: usize) -> Option<DestId>
        ensures { result ≡ trashed_in (slot_at self.now key) }
    {
        let slot = self.slab.get(key)?;
        if slot.row.dest.live {
            None
        } else {
            Some(slot.row.dest.id)
        }
    }

    /// The ids of the servers in the trash, in the order of the slab.
    fn collect_trash(&self, alloc: Global) -> Result<Vec<DestId>, NoMemory>
        ensures { IfOk result (λ ids. ids.items ≡ trashed_of self.now.slab.slots) }
    {
        let mut ids = Vec::new(alloc);
        for key in 0..self.slab.capacity() {
            append(&mut ids, self.trashed_at(key))?;
        }
        Ok(ids)
    }

    /// The ids of the servers in the trash, rising.
    pub(crate) fn trash(&self, alloc: Global) -> Result<Vec<DestId>, NoMemory>
        requires { IsWhole self.now }
        ensures { IfOk result (λ ids. IsTrashOf (rows_of self.now) ids.items) }
    {
        let mut ids = self.collect_trash(alloc)?;
        ids.sort_by_key(|id| id.0)?;
        Ok(ids)
    }
}

fn append(ids: &mut Vec<DestId>, id: Option<DestId>) -> Result<(), NoMemory>
    ensures { OnOk result (ids.new.items ≡ ids.old.items ++ cons_option id []) }
{
    if let Some(id) = id {
        ids.push(id)?;
    }
    Ok(())
}
