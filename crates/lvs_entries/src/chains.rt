//! The chains of a store: made, given room, and gathered.
ghost use Rattle.std.specs.Prelude.{◌≡◌, IfOk, OnOk};
ghost use Rattle.lvs_entries.specs.Store.{AreEmpty, HaveRoom, all_of, lists_of};

use crate::chain::Chain;
use lvs_types::{Entry, NoMemory};
use std::alloc::Global;

/// The number of chains.
const CHAINS: usize = 256;

/// Chains without entries.
pub(crate) fn make_chains(alloc: Global) -> Result<Vec<Chain>, NoMemory>
    ensures { IfOk result (λ chains. AreEmpty 256 chains.items) }
{
    let mut chains = Vec::with_capacity(alloc, CHAINS)?;
    for _ in 0..CHAINS {
        chains.push(Chain::new(alloc))?;
    }
    Ok(chains)
}

/// Makes room for so many more entries in each chain.
pub(crate) fn make_room(chains: &mut [Chain], room: usize) -> Result<(), NoMemory>
    ensures entries { lists_of chains.new ≡ lists_of chains.old }
    ensures ok { OnOk result (HaveRoom room chains.new) }
{
    for chain in chains.iter_mut() {
        chain.reserve(room)?;
    }
    Ok(())
}

/// The entries of all chains, in no order.
pub(crate) fn gather(alloc: Global, chains: &[Chain]) -> Result<Vec<Entry>, NoMemory>
    ensures { IfOk result (λ all. all.items ≡ all_of chains.now) }
{
    let mut all = Vec::new(alloc);
    for chain in chains {
        all.extend_from_slice(chain.as_slice())?;
    }
    Ok(all)
}
