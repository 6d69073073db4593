//! Picks by worked examples.
use crate::{pick_rr, pick_wrr};
use lvs_types::{Candidate, Cursor, DestId};

const START: Cursor = Cursor { last: None, cw: 0 };

fn server(id: u64, weight: u32) -> Candidate {
    Candidate {
        id: DestId(id),
        weight,
        active: 0,
        inactive: 0,
        eligible: weight > 0,
    }
}

fn after(id: u64, cw: u32) -> Cursor {
    Cursor {
        last: Some(DestId(id)),
        cw,
    }
}

#[test]
fn servers_take_turns(rt: HostRuntime) {
    let cases = [
        ([1, 1, 1], START, Some((0, after(1, 0)))),
        ([1, 1, 1], after(1, 0), Some((1, after(2, 0)))),
        ([1, 1, 1], after(3, 9), Some((0, after(1, 9)))),
        ([1, 0, 1], after(1, 0), Some((2, after(3, 0)))),
        ([0, 1, 0], after(2, 0), Some((1, after(2, 0)))),
        ([1, 1, 0], after(2, 0), Some((0, after(1, 0)))),
        ([1, 1, 1], after(7, 0), Some((0, after(1, 0)))),
        ([0, 65_535, 4_294_967_295], START, Some((1, after(2, 0)))),
        ([0, 0, 0], after(2, 5), None),
    ];
    for (weights, cursor, want) in cases {
        let servers = [
            server(1, weights[0]),
            server(2, weights[1]),
            server(3, weights[2]),
        ];
        assert_eq!(rt; pick_rr(&servers, &cursor), want, "{weights:?} {cursor:?}");
    }
    assert_eq!(rt; pick_rr(&[], &START), None);
}

#[test]
fn weights_4_3_2_take_nine_turns(rt: HostRuntime) {
    let servers = [server(1, 4), server(2, 3), server(3, 2)];
    let mut cursor = START;
    for want in [0, 0, 1, 0, 1, 2, 0, 1, 2] {
        let turn = pick_wrr(&servers, &cursor);
        assert_eq!(rt; turn.map(|(place, _)| place), Some(want), "{cursor:?}");
        if let Some((_, left)) = turn {
            cursor = left;
        }
    }
}

#[test]
fn rounds_fall_by_the_greatest_common_divisor(rt: HostRuntime) {
    let cases = [
        // of 65,535 here, which divides the greatest weight
        (
            [4_294_967_295, 65_535, 0],
            START,
            Some((0, after(1, 4_294_967_295))),
        ),
        (
            [4_294_967_295, 65_535, 0],
            after(1, 4_294_967_295),
            Some((0, after(1, 4_294_901_760))),
        ),
        (
            [4_294_967_295, 65_535, 0],
            after(1, 65_535),
            Some((1, after(2, 65_535))),
        ),
        (
            [4_294_967_295, 65_535, 0],
            after(2, 65_535),
            Some((0, after(1, 4_294_967_295))),
        ),
        // of 1
        (
            [1, 2_147_483_647, 4_294_967_295],
            START,
            Some((2, after(3, 4_294_967_295))),
        ),
        (
            [1, 2_147_483_647, 4_294_967_295],
            after(3, 2_147_483_648),
            Some((1, after(2, 2_147_483_647))),
        ),
        (
            [1, 2_147_483_647, 4_294_967_295],
            after(3, 2),
            Some((0, after(1, 1))),
        ),
        // of 2, where the server of weight 3 isn't there
        ([4, 0, 2], after(1, 4), Some((0, after(1, 2)))),
        ([4, 0, 2], after(9, 4), Some((0, after(1, 2)))),
        ([4, 0, 2], after(1, 1), Some((2, after(3, 1)))),
        ([4, 0, 2], after(3, 99), Some((0, after(1, 4)))),
        ([0, 0, 0], after(3, 2), None),
    ];
    for (weights, cursor, want) in cases {
        let servers = [
            server(1, weights[0]),
            server(2, weights[1]),
            server(3, weights[2]),
        ];
        assert_eq!(rt; pick_wrr(&servers, &cursor), want, "{weights:?} {cursor:?}");
    }
}

#[test]
fn an_ineligible_weight_is_not_in_the_divisor(rt: HostRuntime) {
    let mut closed = server(2, 3);
    closed.eligible = false;
    let servers = [server(1, 4), closed, server(3, 2)];
    assert_eq!(rt; pick_wrr(&servers, &after(3, 4)), Some((0, after(1, 2))));
}
