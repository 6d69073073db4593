//! Worked examples of the definitions that contracts cite, which the prover computes.
ghost use Rattle.std.specs.Prelude.{◌≡◌, ℕ, List, [], ◌∷◌};
ghost use Rattle.atomic_table.specs.Seated.{TableId};
ghost use Rattle.lvs_book.specs.Lanes.{naming};
ghost use Rattle.lvs_book.specs.Passes.{opened, AreAll, Tells};

/// Of three acts, here the lists of their lanes, the last two name lane 1.
pub fn acts_of_a_lane()
    ensures { naming {A = List ℕ} (λ lanes. lanes) 1 ((0 ∷ []) ∷ (0 ∷ 1 ∷ []) ∷ (1 ∷ []) ∷ []) ≡ (0 ∷ 1 ∷ []) ∷ (1 ∷ []) ∷ [] }
{}

/// Two new passes.
pub fn two_new_passes()
    ensures { (book : TableId) → opened {O = ℕ} {A = List ℕ} book 7 0 2 ≡ record { book = book; lane = 0; origin = 7; acts = [] } ∷ record { book = book; lane = 1; origin = 7; acts = [] } ∷ [] }
{}

/// They are all passes of a book of two lanes, in order.
pub fn all_of_two()
    ensures { (book : TableId) → AreAll {O = ℕ} {A = List ℕ} book 0 2 (opened book 7 0 2) }
{}

/// After an act of lane 0, one of both lanes and one of lane 1.
pub fn two_passes_at_the_end()
    ensures { (book : TableId) → Tells {O = ℕ} {A = List ℕ} (λ lanes. lanes) 7 ((0 ∷ []) ∷ (0 ∷ 1 ∷ []) ∷ (1 ∷ []) ∷ []) (record { book = book; lane = 0; origin = 7; acts = (0 ∷ []) ∷ (0 ∷ 1 ∷ []) ∷ [] } ∷ record { book = book; lane = 1; origin = 7; acts = (0 ∷ 1 ∷ []) ∷ (1 ∷ []) ∷ [] } ∷ []) }
{}
