//! Reaping: due templates, and servers that nothing names.
ghost use Rattle.std.specs.Prelude.{◌≡◌, ◌<◌, ◌^◌, IfOk, OnErr};
ghost use Rattle.lvs_model.specs.Clock.{reap};
ghost use Rattle.lvs_board.specs.Desks.{state_of, IsSound};

use crate::desk::Desk;
use crate::holding::unhold_servers;
use lvs_rules::Whole;
use lvs_types::{NoMemory, Reply};
use std::alloc::Global;

impl Desk {
    /// Due templates leave or are held longer, and then the servers in the trash that nothing names
    /// are released.
    pub(crate) fn reap<W: Whole>(&mut self, alloc: Global) -> Result<Reply, NoMemory>
        requires sound { IsSound W.whole self.old }
        requires now { self.old.moment < 2 ^ 32 }
        ensures ok { IfOk result (λ r. (r, state_of W.whole self.new) ≡ reap (state_of W.whole self.old)) }
        ensures err { OnErr result (self.new ≡ self.old) }
        ensures sound { IsSound W.whole self.new }
        ensures rest { self.new ≡ record self.old { dests = self.new.dests; templates = self.new.templates } }
    {
        let due = self.templates.due(alloc, self.moment)?;
        unhold_servers(&mut self.dests, &due.gone);
        let servers = self.dests.reap();
        Ok(Reply::Reaped {
            templates: due.gone.len() as u64,
            renewed: due.renewed,
            servers,
        })
    }
}
