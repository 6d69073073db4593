//! What a director shows of itself.
use crate::{Addr, Daemons, DestRow, Entry, Listed, Service, Settings, SyncRecord, Template};

/// All that a director keeps, in the order in which listings show it: services in order of
/// addition; live servers service by service in order, then the trashed ones by id; templates and
/// entries by id; pending records in order.
#[derive(Debug, PartialEq, Drop)]
pub struct Snapshot {
    /// The moment in seconds.
    pub now: u64,
    /// The source of tunnel packets.
    pub local: Addr,
    /// The sysctls and timeouts.
    pub settings: Settings,
    /// The sync daemons that run.
    pub daemons: Daemons,
    /// In order of addition.
    pub services: Listed<Service>,
    /// Live servers service by service in order of addition, then those in the trash by id.
    pub dests: Listed<DestRow>,
    /// By id.
    pub templates: Listed<Template>,
    /// By id.
    pub entries: Listed<Entry>,
    /// The records that the next sending takes, in order.
    pub pending: Listed<SyncRecord>,
}
