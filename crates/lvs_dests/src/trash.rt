//! The servers in the trash.
ghost use Rattle.std.specs.Prelude.{◌≡◌, count_by, IfOk};
ghost use Rattle.lvs_model.specs.Lists.{without};
ghost use Rattle.lvs_dests.specs.Rows.{is_row_released, IsTrashOf};

use crate::dests::Dests;
use lvs_types::{DestId, NoMemory};
use std::alloc::Global;

impl Dests {
    /// Releases the servers in the trash that nothing names, and tells how many.
    pub fn reap(&mut self) -> u64
        ensures count { result ≡ count_by is_row_released self.old.rows }
        ensures rows { self.new ≡ record self.old { rows = without is_row_released self.old.rows } }
    {
        self.pool.reap()
    }

    /// The ids of the servers in the trash, rising.
    pub fn trash(&self, alloc: Global) -> Result<Vec<DestId>, NoMemory>
        ensures { IfOk result (λ ids. IsTrashOf self.now.rows ids.items) }
    {
        self.pool.trash(alloc)
    }
}
