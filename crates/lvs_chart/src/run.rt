//! What the picture shows of a run.
ghost use Rattle.std.specs.Prelude.{◌≤◌, length, OnOk};

use crate::replies::ReplyCounts;
use lvs_types::NoMemory;
use std::cmp::Reverse;

/// How many servers a picture has at most.
pub const MAX_SERVERS: usize = 200;

/// A round of the run.
#[derive(Clone, Copy, Debug, PartialEq, Eq)]
pub struct Round {
    /// In seconds.
    pub moment: u64,
    /// The replies to its packets.
    pub replies: ReplyCounts,
    /// Whether a command or a sysctl was done.
    pub edited: bool,
    /// Whether a sweep ended an entry.
    pub swept: bool,
    /// Whether a sync record was accepted.
    pub learnt: bool,
}

/// What a listing says of a server.
#[derive(Clone, Copy, Debug, PartialEq, Eq)]
pub struct Point {
    /// The moment of the listing's round, in seconds.
    pub moment: u64,
    /// The number of the listing in the report, from 1.
    pub listing: u64,
    /// Active connections.
    pub active: u64,
    /// Inactive connections.
    pub inactive: u64,
}

/// A real server of a service over the run.
#[derive(Drop)]
pub struct Series {
    /// `ADDR:PORT of SERVICE`, as the listings name them.
    pub name: String,
    /// In order of the listings; none for a listing without the server.
    pub points: Vec<Point>,
    /// The sum of its connections over all points.
    pub weight: u64,
}

impl Series {
    /// One point more.
    pub(crate) fn push(&mut self, point: Point) -> Result<(), NoMemory> {
        let connections = point.active.saturating_add(point.inactive);
        self.points.push(point)?;
        self.weight = self.weight.saturating_add(connections);
        Ok(())
    }
}

/// What the picture shows of a run.
#[derive(Drop)]
pub struct Run {
    /// In order.
    pub rounds: Vec<Round>,
    /// In order of the first listing that has them.
    pub servers: Vec<Series>,
}

/// Leaves at most `MAX_SERVERS` servers: where there are more, those with most connections, the
/// busiest first.
pub(crate) fn keep_busiest(servers: &mut Vec<Series>) -> Result<(), NoMemory>
    ensures { OnOk result (length servers.new.items ≤ 200) }
{
    if servers.len() > MAX_SERVERS {
        servers.sort_by_key(|server| Reverse(server.weight))?;
        servers.truncate(MAX_SERVERS);
    }
    Ok(())
}
