//! Worked examples: picks by hashed addresses, by weight and by room.
ghost use Rattle.std.specs.Prelude.{◌≡◌, ◌∷◌, [], false, None, Some, map};
ghost use Rattle.lvs_model.specs.AddressHash.{slot_of, owner_of, pick_sh, pick_dh};
ghost use Rattle.lvs_model.specs.MorePicks.{pick_fo, pick_ovf, pick_mh, mh_table, slots_a_round, preferred};

use lvs_types::{Addr, Candidate, DestId};

/// An eligible server without connections.
const LIGHT: Candidate = Candidate {
    id: DestId(1),
    weight: 1,
    active: 0,
    inactive: 0,
    eligible: true,
};

/// The slots of some addresses.
pub fn slots()
    ensures client_9 { slot_of (record { number = 0xAC10_0009 }) ≡ 23 }
    ensures client_12 { slot_of (record { number = 0xAC10_000C }) ≡ 241 }
    ensures client_16 { slot_of (record { number = 0xAC10_0010 }) ≡ 106 }
    ensures virtual_address { slot_of (record { number = 0x0A00_0001 }) ≡ 136 }
{}

/// Source hashing of two servers of weight 1: slot 23 is the second one's.
pub fn source_hashing()
    ensures { pick_sh (LIGHT ∷ LIGHT ∷ []) (record { number = 0xAC10_0009 }) ≡ Some 1 }
{}

/// Of servers with weights 2,000,000,000 and 3 the first holds every slot.
pub fn source_hashing_of_a_giant()
    ensures { pick_sh (record LIGHT { weight = 2000000000 } ∷ record LIGHT { weight = 3 } ∷ []) (record { number = 0xAC10_0009 }) ≡ Some 0 }
{}

/// Destination hashing of three servers: slot 136 is the second one's.
pub fn destination_hashing()
    ensures second { pick_dh (LIGHT ∷ LIGHT ∷ LIGHT ∷ []) (record { number = 0x0A00_0001 }) ≡ Some 1 }
    ensures ineligible { pick_dh (LIGHT ∷ record LIGHT { eligible = false } ∷ LIGHT ∷ []) (record { number = 0x0A00_0001 }) ≡ None }
{}

/// Failover: the heavier server, and the other one once the heavier has no weight.
pub fn failover()
    ensures heavier { pick_fo (LIGHT ∷ record LIGHT { weight = 3 } ∷ []) ≡ Some 1 }
    ensures other { pick_fo (LIGHT ∷ record LIGHT { weight = 0; eligible = false } ∷ []) ≡ Some 0 }
    ensures tie { pick_fo (record LIGHT { eligible = false } ∷ LIGHT ∷ LIGHT ∷ []) ≡ Some 1 }
{}

/// Overflow of weights 2 and 1, one connection after the other: the first server takes one more at
/// two, then the second.
pub fn overflow()
    ensures first { pick_ovf (record LIGHT { weight = 2 } ∷ LIGHT ∷ []) ≡ Some 0 }
    ensures second { pick_ovf (record LIGHT { weight = 2; active = 1 } ∷ LIGHT ∷ []) ≡ Some 0 }
    ensures third { pick_ovf (record LIGHT { weight = 2; active = 2 } ∷ LIGHT ∷ []) ≡ Some 0 }
    ensures fourth { pick_ovf (record LIGHT { weight = 2; active = 3 } ∷ LIGHT ∷ []) ≡ Some 1 }
    ensures none { pick_ovf (record LIGHT { active = 2 } ∷ []) ≡ None }
{}

/// Maglev hashing of 192.168.0.1 and 192.168.0.2, weights 1: 32 turns each.
pub fn maglev_turns()
    ensures turns { slots_a_round 2 LIGHT ≡ 32 }
    ensures first { map (preferred (record { number = 0xC0A8_0001 })) (0 ∷ 1 ∷ 2 ∷ []) ≡ 58 ∷ 61 ∷ 64 ∷ [] }
    ensures second { map (preferred (record { number = 0xC0A8_0002 })) (0 ∷ 1 ∷ 2 ∷ []) ≡ 216 ∷ 221 ∷ 226 ∷ [] }
{}

/// A client at 172.16.0.16, slot 106, goes to the first, one at 172.16.0.12, slot 241, to the
/// second. Without a weight there is no pick.
pub fn maglev_hashing()
    ensures first { pick_mh (LIGHT ∷ LIGHT ∷ []) (record { number = 0xC0A8_0001 } ∷ record { number = 0xC0A8_0002 } ∷ []) (record { number = 0xAC10_0010 }) ≡ Some 0 }
    ensures second { pick_mh (LIGHT ∷ LIGHT ∷ []) (record { number = 0xC0A8_0001 } ∷ record { number = 0xC0A8_0002 } ∷ []) (record { number = 0xAC10_000C }) ≡ Some 1 }
    ensures none { pick_mh (record LIGHT { weight = 0 } ∷ []) (record { number = 0xC0A8_0001 } ∷ []) (record { number = 0xAC10_0010 }) ≡ None }
{}
