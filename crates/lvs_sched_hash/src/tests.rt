//! Picks by worked examples.
use crate::{SlotTable, pick_slot};
use lvs_types::{Addr, Candidate, DestId};

/// 172.16.0.9, slot 23.
const CLIENT_9: Addr = Addr {
    number: 0xAC10_0009,
};

/// 172.16.0.16, slot 106.
const CLIENT_16: Addr = Addr {
    number: 0xAC10_0010,
};

/// 10.0.0.1, slot 136.
const VIRTUAL: Addr = Addr {
    number: 0x0A00_0001,
};

fn server(weight: u32) -> Candidate {
    Candidate {
        id: DestId(1),
        weight,
        active: 0,
        inactive: 0,
        eligible: true,
    }
}

#[test]
fn source_hashing_goes_by_weight(rt: HostRuntime) {
    let cases = [
        ([1, 1], CLIENT_9, 1),
        ([1, 1], CLIENT_16, 0),
        ([0, 1], CLIENT_9, 1),
        ([100, 7], CLIENT_9, 0),
        ([100, 7], CLIENT_16, 1),
        ([65_535, 1], CLIENT_16, 0),
        ([7, 2_147_483_647], CLIENT_9, 1),
        ([4_294_967_295, 4_294_967_295], CLIENT_9, 0),
    ];
    for (weights, client, want) in cases {
        let servers = [server(weights[0]), server(weights[1])];
        let table = SlotTable::of_sh(&servers);
        assert_eq!(rt;
            pick_slot(&table, &servers, client),
            Some(want),
            "{weights:?}"
        );
    }
}

#[test]
fn destination_hashing_goes_round(rt: HostRuntime) {
    let mut servers = [server(1), server(1), server(1)];
    let table = SlotTable::of_dh(&servers);
    assert_eq!(rt; pick_slot(&table, &servers, VIRTUAL), Some(1));
    assert_eq!(rt; pick_slot(&table, &servers, CLIENT_9), Some(2));
    servers[1].eligible = false;
    assert_eq!(rt; pick_slot(&table, &servers, VIRTUAL), None);
    assert_eq!(rt; pick_slot(&table, &servers, CLIENT_9), Some(2));
}

#[test]
fn without_servers_there_is_no_pick(rt: HostRuntime) {
    assert_eq!(rt; pick_slot(&SlotTable::of_sh(&[]), &[], CLIENT_9), None);
    assert_eq!(rt; pick_slot(&SlotTable::of_dh(&[]), &[], CLIENT_9), None);
}
