//! What the director keeps.
ghost use Rattle.std.specs.Prelude.{◌≡◌};
ghost use Rattle.lvs_flat.specs.Lists.{state_of};
ghost use Rattle.lvs_model.specs.State.{initial};

use lvs_types::{Addr, Daemons, Dest, Entry, Service, Settings, SyncRecord, Template};
use std::alloc::Global;

/// The lists of the flat state, and its numbers.
#[derive(Drop)]
pub(crate) struct Lists {
    /// The present moment, in seconds.
    pub moment: u64,
    pub local: Addr,
    pub buckets: u32,
    pub settings: Settings,
    pub daemons: Daemons,
    pub services: Vec<Service>,
    pub dests: Vec<Dest>,
    pub templates: Vec<Template>,
    pub entries: Vec<Entry>,
    pub pending: Vec<SyncRecord>,
    pub next_entry: u64,
    pub next_dest: u64,
    pub next_template: u64,
}

impl Lists {
    /// Lists with nothing in them.
    pub(crate) fn empty(alloc: Global, local: Addr, buckets: u32) -> Lists
        ensures { state_of result ≡ initial local buckets }
    {
        Lists {
            moment: 0,
            local,
            buckets,
            settings: Settings::initial(),
            daemons: Daemons {
                master: None,
                backup: None,
            },
            services: Vec::new(alloc),
            dests: Vec::new(alloc),
            templates: Vec::new(alloc),
            entries: Vec::new(alloc),
            pending: Vec::new(alloc),
            next_entry: 1,
            next_dest: 1,
            next_template: 1,
        }
    }
}
