//! The number of a connection's chain.
ghost use Rattle.std.specs.Prelude.{◌≡◌};
ghost use Rattle.lvs_entries.specs.Chains.{chain_of as chain_by, key_chain};

use lvs_model::mix;
use lvs_types::{Addr, Key, Proto};

/// Which of the 256 chains the connections of a client's side stand in, so that packets of both
/// directions look into one chain.
pub(crate) fn chain_of(proto: Proto, client: Addr, port: u16) -> u8
    ensures { result ≡ chain_by proto client port }
{
    ((mix(proto.code(), client, port) >> 8) % 256) as u8
}

/// The chain of a key.
pub(crate) fn chain_of_key(key: &Key) -> u8
    ensures { result ≡ key_chain key.now }
{
    chain_of(key.proto, key.caddr, key.cport)
}
