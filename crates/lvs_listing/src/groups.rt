//! The rows of servers in groups by their service, so that a service looks through few of them.
ghost use Rattle.std.specs.Prelude.{◌≡◌, ◌<◌, ◌++◌, ◌∷◌, List, [], length, max, OnOk, IfOk};
ghost use Rattle.lvs_types.specs.declared.dest.DestRow.{DestRow};
ghost use Rattle.lvs_model.specs.Listings.{rows_of};
ghost use Rattle.lvs_listing.specs.Grouped.{key_number, group_of, AreGrouped, HasRow};

use lvs_types::{DestRow, NoMemory, Proto, ServiceKey};
use std::alloc::Global;
use std::marker::Model;

/// The rows of one group.
#[derive(Drop)]
struct Group {
    rows: Vec<DestRow>,
}

impl Model for Group {
    ghost use Rattle.std.specs.Prelude.{List};
    ghost use Rattle.lvs_types.specs.declared.dest.DestRow.{DestRow};

    ghost Value = { List DestRow };

    ghost view = { λ g. g.rows.items };
}

impl Group {
    fn new(alloc: Global) -> Group
        ensures { result ≡ [] }
    {
        Group {
            rows: Vec::new(alloc),
        }
    }

    fn push(&mut self, row: DestRow) -> Result<(), NoMemory>
        ensures { OnOk result (self.new ≡ self.old ++ row ∷ []) }
    {
        self.rows.push(row)?;
        Ok(())
    }

    fn as_slice(&self) -> &[DestRow]
        ensures { result.now ≡ self.now }
    {
        &self.rows
    }
}

/// A number that tells keys of one kind apart.
#[tactic(auto, unfolding(crate::specs::Grouped::key_number))]
fn key_number(key: ServiceKey) -> u64
    ensures { result ≡ key_number key }
{
    match key {
        ServiceKey::Net {
            proto: Proto::Tcp,
            addr,
            port,
        } => 131_072 * u64::from(addr.number) + 2 * u64::from(port),
        ServiceKey::Net {
            proto: Proto::Udp,
            addr,
            port,
        } => 131_072 * u64::from(addr.number) + 2 * u64::from(port) + 1,
        ServiceKey::Mark(mark) => u64::from(mark),
    }
}

/// The group of a key, of so many. The numbers of neighbouring keys, multiplied by 2^64 divided by
/// the golden ratio, lie far apart, so that few services share a group.
#[tactic(auto, unfolding(crate::specs::Grouped::group_of))]
fn group_of(count: usize, key: ServiceKey) -> usize
    requires { 0 < count }
    ensures value { result ≡ group_of count key }
    ensures within { result < count }
{
    let mixed = key_number(key).wrapping_mul(11_400_714_819_323_198_485) >> 32;
    (mixed % count as u64) as usize
}

/// Groups without rows.
fn make_groups(alloc: Global, count: usize) -> Result<Vec<Group>, NoMemory>
    ensures length { IfOk result (λ groups. length groups.items ≡ count) }
    ensures empty { IfOk result (λ groups. AreGrouped groups.items []) }
{
    let mut groups = Vec::with_capacity(alloc, count)?;
    for _ in 0..count {
        groups.push(Group::new(alloc))?;
    }
    Ok(groups)
}

/// Rows in groups by their service. A contract sees the rows of each group.
#[derive(Drop)]
pub(crate) struct Groups {
    groups: Vec<Group>,
}

impl Model for Groups {
    ghost use Rattle.std.specs.Prelude.{List, length, ◌<◌};
    ghost use Rattle.lvs_types.specs.declared.dest.DestRow.{DestRow};

    ghost Value = { List (List DestRow) };

    ghost view = { λ g. g.groups.items };

    ghost invariant = { λ g. 0 < length g.groups.items };
}

impl Groups {
    /// So many groups, at least one, without rows.
    fn new(alloc: Global, count: usize) -> Result<Groups, NoMemory>
        ensures empty { IfOk result (λ groups. AreGrouped groups []) }
        ensures count { IfOk result (λ groups. length groups ≡ max count 1) }
    {
        Ok(Groups {
            groups: make_groups(alloc, count.max(1))?,
        })
    }

    /// Puts a row behind those of its group.
    fn push(&mut self, row: DestRow) -> Result<(), NoMemory>
        ensures row { OnOk result (HasRow self.old row self.new) }
        ensures count { length self.new ≡ length self.old }
    {
        let at = group_of(self.groups.len(), row.dest.service);
        self.groups[at].push(row)?;
        Ok(())
    }

    /// The rows, in so many groups, at least one.
    pub(crate) fn of(alloc: Global, count: usize, rows: &[DestRow]) -> Result<Groups, NoMemory>
        ensures grouped { IfOk result (λ groups. AreGrouped groups rows.now) }
        ensures count { IfOk result (λ groups. length groups ≡ max count 1) }
    {
        let mut groups = Groups::new(alloc, count)?;
        for row in rows {
            groups.push(*row)?;
        }
        Ok(groups)
    }

    /// The rows of the group of a service, with all of its own among them, in order.
    pub(crate) fn around(&self, key: ServiceKey) -> &[DestRow]
        ensures { (rows : List DestRow) → AreGrouped self.now rows → rows_of key result.now ≡ rows_of key rows }
    {
        self.groups[group_of(self.groups.len(), key)].as_slice()
    }
}
