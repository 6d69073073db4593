//! Picks by worked examples.
use crate::{MhTable, pick_fo, pick_mh, pick_ovf};
use lvs_types::{Addr, Candidate, DestId};

/// 192.168.0.1 and 192.168.0.2.
const ADDRS: [Addr; 2] = [
    Addr {
        number: 0xC0A8_0001,
    },
    Addr {
        number: 0xC0A8_0002,
    },
];

/// 172.16.0.16, slot 106.
const CLIENT_16: Addr = Addr {
    number: 0xAC10_0010,
};

/// 172.16.0.12, slot 241.
const CLIENT_12: Addr = Addr {
    number: 0xAC10_000C,
};

fn server(weight: u32, active: u64) -> Candidate {
    Candidate {
        id: DestId(1),
        weight,
        active,
        inactive: 0,
        eligible: weight > 0,
    }
}

#[test]
fn failover_picks_the_heaviest(rt: HostRuntime) {
    let cases = [
        ([1, 3], Some(1)),
        ([1, 0], Some(0)),
        ([2, 2], Some(0)),
        ([2_147_483_647, 4_294_967_295], Some(1)),
        ([0, 0], None),
    ];
    for (weights, want) in cases {
        let servers = [server(weights[0], 0), server(weights[1], 9)];
        assert_eq!(rt; pick_fo(&servers), want, "{weights:?}");
    }
    assert_eq!(rt; pick_fo(&[]), None);
}

#[test]
fn overflow_goes_on_where_the_first_is_full(rt: HostRuntime) {
    let cases = [
        ([0, 0], Some(0)),
        ([1, 0], Some(0)),
        ([2, 0], Some(0)),
        ([3, 0], Some(1)),
        ([3, 2], None),
        ([18_446_744_073_709_551_615, 1], Some(1)),
    ];
    for (active, want) in cases {
        let servers = [server(2, active[0]), server(1, active[1])];
        assert_eq!(rt; pick_ovf(&servers), want, "{active:?}");
    }
}

#[test]
fn maglev_hashing_goes_by_the_client(rt: HostRuntime) {
    for weight in [1, 65_535, 4_294_967_295] {
        let mut servers = [server(weight, 0), server(weight, 0)];
        let table = MhTable::of(&servers, &ADDRS);
        assert_eq!(rt; pick_mh(&table, &servers, CLIENT_16), Some(0), "{weight}");
        assert_eq!(rt; pick_mh(&table, &servers, CLIENT_12), Some(1), "{weight}");
        servers[1].eligible = false;
        assert_eq!(rt; pick_mh(&table, &servers, CLIENT_12), None, "{weight}");
    }
}

#[test]
fn maglev_hashing_needs_a_weight(rt: HostRuntime) {
    let servers = [server(0, 0), server(0, 0)];
    let table = MhTable::of(&servers, &ADDRS);
    assert_eq!(rt; pick_mh(&table, &servers, CLIENT_16), None);
    let servers = [server(0, 0), server(7, 0)];
    let table = MhTable::of(&servers, &ADDRS);
    assert_eq!(rt; pick_mh(&table, &servers, CLIENT_16), Some(1));
    assert_eq!(rt; pick_mh(&table, &servers, CLIENT_12), Some(1));
}
