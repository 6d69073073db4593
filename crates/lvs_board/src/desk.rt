//! The tables of the board, and the change of the item's bucket so far.
ghost use Rattle.std.specs.Prelude.{◌≡◌, None, IfOk};
ghost use Rattle.lvs_board.specs.Seen.{begun};
ghost use Rattle.lvs_board.specs.Desks.{seen_of};

use lvs_dests::Dests;
use lvs_services::Services;
use lvs_templates::Templates;
use lvs_types::{Addr, Change, Daemons, NoMemory, Settings, SyncRecord};
use std::alloc::Global;

/// The sweep that an item is: of which bucket, and at which moment in seconds.
#[derive(Clone, Copy, Debug, PartialEq, Eq)]
pub(crate) struct Sweep {
    pub bucket: u32,
    pub moment: u64,
}

/// All that the rules read and change, but the entries, of which it has the change so far.
#[derive(Drop)]
pub(crate) struct Desk {
    pub moment: u64,
    pub local: Addr,
    pub settings: Settings,
    pub daemons: Daemons,
    pub services: Services,
    pub dests: Dests,
    pub templates: Templates,
    pub pending: Vec<SyncRecord>,
    pub next_entry: u64,
    pub next_template: u64,
    /// The id of the entry that was found for the item.
    pub home: Option<u64>,
    /// The sweep that the item is, if it is one.
    pub sweep: Option<Sweep>,
    /// The bucket whose due entries have ended.
    pub bucket: u32,
    pub change: Change,
}

/// The sysctls and timeouts that a director begins with.
fn begin_daemons() -> Daemons
    ensures { result ≡ record { master = None; backup = None } }
{
    Daemons {
        master: None,
        backup: None,
    }
}

impl Desk {
    /// Tables with nothing in them: tunnels begin at the address.
    pub(crate) fn empty(alloc: Global, local: Addr) -> Result<Desk, NoMemory>
        ensures { IfOk result (λ d. seen_of d ≡ begun local) }
    {
        Ok(Desk {
            moment: 0,
            local,
            settings: Settings::initial(),
            daemons: begin_daemons(),
            services: Services::new(alloc)?,
            dests: Dests::new(alloc)?,
            templates: Templates::new(alloc)?,
            pending: Vec::new(alloc),
            next_entry: 1,
            next_template: 1,
            home: None,
            sweep: None,
            bucket: 0,
            change: Change::Keep,
        })
    }
}
