//! Picks by worked examples.
ghost use Rattle.std.specs.Prelude.{◌≡◌, false};
ghost use Rattle.lvs_model.specs.LeastLoad.{AreWeighed, is_weightless};

use crate::{pick_lc, pick_nq, pick_sed, pick_wlc};
use lvs_types::{Candidate, DestId};

/// A server of a weight, with so many active and inactive connections.
type Load = (u32, u64, u64);

fn servers(loads: [Load; 3]) -> [Candidate; 3]
    ensures { AreWeighed result }
{
    [
        server(1, loads[0]),
        server(2, loads[1]),
        server(3, loads[2]),
    ]
}

fn server(id: u64, load: Load) -> Candidate
    ensures { is_weightless result ≡ false }
{
    Candidate {
        id: DestId(id),
        weight: load.0,
        active: load.1,
        inactive: load.2,
        eligible: load.0 > 0,
    }
}

/// No server.
const NONE: Load = (0, 0, 0);

#[test]
fn four_new_connections(rt: HostRuntime) {
    // weights 1 and 2; the connections so far, none of them established, and the picks of wlc
    let cases = [(0, 0, 0), (1, 0, 1), (1, 1, 1), (1, 2, 0)];
    for (first, second, want) in cases {
        let servers = servers([(1, 0, first), (2, 0, second), NONE]);
        assert_eq!(rt; pick_wlc(&servers), Some(want), "{first} {second}");
        assert_eq!(rt; pick_sed(&servers), Some(1), "{first} {second}");
        assert_eq!(rt; pick_nq(&servers), Some(0), "{first} {second}");
    }
}

#[test]
fn least_load_of_all(rt: HostRuntime) {
    // the servers, and the picks of lc, wlc, sed and nq
    let cases = [
        // ties go to the first
        ([(1, 1, 0), (1, 0, 256), (1, 1, 0)], Some([0, 0, 1, 1])),
        ([(1, 2, 0), (1, 1, 1), (1, 1, 1)], Some([1, 1, 1, 1])),
        // a server that isn't eligible
        ([NONE, (1, 9, 0), (1, 8, 0)], Some([2, 2, 2, 2])),
        ([NONE, NONE, NONE], None),
        // the first idle one
        ([(1, 1, 0), (9, 0, 9), (9, 0, 0)], Some([2, 2, 1, 1])),
        // weights
        (
            [(65_535, 9, 0), (1, 1, 0), (2_147_483_647, 9, 0)],
            Some([1, 2, 2, 2]),
        ),
        // products beyond 64 bits
        (
            [
                (4_294_967_294, u64::MAX, u64::MAX),
                (4_294_967_295, u64::MAX, u64::MAX),
                NONE,
            ],
            Some([0, 1, 1, 1]),
        ),
        (
            [(1, 72_057_594_037_927_936, 0), (1, 1, 0), NONE],
            Some([1, 1, 1, 1]),
        ),
        ([(1, u64::MAX, 0), (1, 5, 0), NONE], Some([1, 1, 1, 1])),
    ];
    for (loads, want) in cases {
        let servers = servers(loads);
        assert_eq!(rt;
            pick_lc(&servers),
            want.map(|places| places[0]),
            "lc {loads:?}"
        );
        assert_eq!(rt;
            pick_wlc(&servers),
            want.map(|places| places[1]),
            "wlc {loads:?}"
        );
        assert_eq!(rt;
            pick_sed(&servers),
            want.map(|places| places[2]),
            "sed {loads:?}"
        );
        assert_eq!(rt;
            pick_nq(&servers),
            want.map(|places| places[3]),
            "nq {loads:?}"
        );
    }
}
