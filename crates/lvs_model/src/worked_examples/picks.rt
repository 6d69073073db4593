//! Worked examples: picks.
ghost use Rattle.std.specs.Prelude.{◌≡◌, [], ◌∷◌, Some, None};
ghost use Rattle.lvs_model.specs.ExampleServers.{idle, loaded, closed, cursor_after};
ghost use Rattle.lvs_model.specs.Edits.{fresh_cursor};
ghost use Rattle.lvs_model.specs.RoundRobin.{pick_rr, pick_wrr, picks_in_turn, next_current_weight, greatest_common_divisor};
ghost use Rattle.lvs_model.specs.LeastLoad.{pick_lc, pick_wlc, pick_sed, pick_nq, picks_in_row};

/// Servers take turns, and the one that was picked last is looked at last.
pub fn rr_takes_turns()
    ensures begins { picks_in_turn pick_rr (idle 1 1 ∷ idle 2 1 ∷ idle 3 1 ∷ []) fresh_cursor 5 ≡ 0 ∷ 1 ∷ 2 ∷ 0 ∷ 1 ∷ [] }
    ensures ineligible { picks_in_turn pick_rr (idle 1 1 ∷ closed 2 1 ∷ idle 3 1 ∷ []) fresh_cursor 4 ≡ 0 ∷ 2 ∷ 0 ∷ 2 ∷ [] }
    ensures cursor { pick_rr (idle 1 1 ∷ idle 2 1 ∷ idle 3 1 ∷ []) (cursor_after 2 7) ≡ Some (2, cursor_after 3 7) }
    ensures nobody { picks_in_turn pick_rr (idle 1 1 ∷ idle 2 1 ∷ []) (cursor_after 9 0) 3 ≡ 0 ∷ 1 ∷ 0 ∷ [] }
    ensures itself { pick_rr (closed 1 1 ∷ idle 2 1 ∷ []) (cursor_after 2 0) ≡ Some (1, cursor_after 2 0) }
    ensures none { pick_rr (closed 1 1 ∷ closed 2 1 ∷ []) fresh_cursor ≡ None }
{}

/// Three servers of weights 4, 3 and 2 get nine picks: A A B A B C A B C.
pub fn wrr_of_4_3_2()
    ensures { picks_in_turn pick_wrr (idle 1 4 ∷ idle 2 3 ∷ idle 3 2 ∷ []) fresh_cursor 9 ≡ 0 ∷ 0 ∷ 1 ∷ 0 ∷ 1 ∷ 2 ∷ 0 ∷ 1 ∷ 2 ∷ [] }
{}

/// The greatest common divisor is the step, and ineligible servers don't count.
pub fn wrr_steps()
    ensures divisor { greatest_common_divisor (12 ∷ 18 ∷ 30 ∷ []) ≡ 6 }
    ensures first { next_current_weight (12 ∷ 18 ∷ 30 ∷ []) 0 ≡ 30 }
    ensures next { next_current_weight (12 ∷ 18 ∷ 30 ∷ []) 30 ≡ 24 }
    ensures again { next_current_weight (12 ∷ 18 ∷ 30 ∷ []) 6 ≡ 30 }
    ensures above { next_current_weight (12 ∷ 18 ∷ 30 ∷ []) 99 ≡ 30 }
    ensures ineligible { picks_in_turn pick_wrr (idle 1 4 ∷ closed 2 3 ∷ idle 3 2 ∷ []) fresh_cursor 6 ≡ 0 ∷ 0 ∷ 2 ∷ 0 ∷ 0 ∷ 2 ∷ [] }
    ensures cursor { pick_wrr (idle 1 4 ∷ idle 2 3 ∷ idle 3 2 ∷ []) (cursor_after 1 3) ≡ Some (1, cursor_after 2 3) }
    ensures nobody { pick_wrr (idle 1 4 ∷ idle 2 3 ∷ idle 3 2 ∷ []) (cursor_after 9 4) ≡ Some (0, cursor_after 1 3) }
    ensures none { pick_wrr (closed 1 0 ∷ []) fresh_cursor ≡ None }
{}

/// Weights 1 and 2 and four new connections: A B B A by wlc, whose ties go to the first, B B B B by sed and A A A A by nq, while none is established.
pub fn least_loads_grow()
    ensures lc { picks_in_row pick_lc (idle 1 1 ∷ idle 2 2 ∷ []) 4 ≡ 0 ∷ 1 ∷ 0 ∷ 1 ∷ [] }
    ensures wlc { picks_in_row pick_wlc (idle 1 1 ∷ idle 2 2 ∷ []) 4 ≡ 0 ∷ 1 ∷ 1 ∷ 0 ∷ [] }
    ensures sed { picks_in_row pick_sed (idle 1 1 ∷ idle 2 2 ∷ []) 4 ≡ 1 ∷ 1 ∷ 1 ∷ 1 ∷ [] }
    ensures nq { picks_in_row pick_nq (idle 1 1 ∷ idle 2 2 ∷ []) 4 ≡ 0 ∷ 0 ∷ 0 ∷ 0 ∷ [] }
{}

/// An active connection weighs as much as 256 inactive ones, and an ineligible server isn't looked at.
pub fn least_loads()
    ensures lc { pick_lc (loaded 1 1 1 0 ∷ loaded 2 1 0 256 ∷ loaded 3 1 0 255 ∷ []) ≡ Some 2 }
    ensures tie { pick_lc (loaded 1 1 1 0 ∷ loaded 2 1 0 256 ∷ []) ≡ Some 0 }
    ensures ineligible { pick_wlc (closed 1 1 ∷ loaded 2 1 5 0 ∷ []) ≡ Some 1 }
    ensures delay { pick_sed (loaded 1 1 1 0 ∷ loaded 2 3 2 0 ∷ []) ≡ Some 1 }
    ensures idle { pick_nq (loaded 1 1 1 0 ∷ loaded 2 3 2 0 ∷ idle 3 1 ∷ idle 4 9 ∷ []) ≡ Some 2 }
    ensures busy { pick_nq (loaded 1 1 1 0 ∷ loaded 2 3 2 0 ∷ []) ≡ Some 1 }
    ensures none { pick_nq (closed 1 0 ∷ []) ≡ None }
{}
