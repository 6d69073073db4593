//! The right to take turns for one lane.
ghost use Rattle.std.specs.Prelude.{◌≡◌, ◌∷◌, []};
ghost use Rattle.lvs_book.specs.Passes.{IsHeld, held_by, lane_of};
ghost use Rattle.lvs_book.specs.Steps.{at_rest};

use crate::journal::Journal;
use crate::turnstile::BookSeat;
use crate::view::View;
use atomic_table::Badge;
use std::marker::Model;
use std::mem;

/// A pass of one book. It has no bytes. Contracts see the identity of its book, its lane, the book's
/// origin and the acts that were committed with it.
#[derive(Drop)]
pub struct Pass<T: Journal> {
    pub(crate) badge: Badge<View<T::Origin, T::Act>>,
}

impl<T: Journal> Model for Pass<T> {
    ghost use Rattle.lvs_book.specs.Passes.{Held, held_by, IsHeld};

    ghost Value = { Held T.Origin T.Act };

    ghost view = { λ p. held_by p.badge.table_id T.nowhere p.badge.views };

    ghost invariant = { λ p. IsHeld p.badge.views };
}

// The seat of a pass. A badge that is none stands in its place until the seat is back.
pub(crate) fn take_seat<T: Journal>(badge: &mut Badge<View<T::Origin, T::Act>>) -> BookSeat<T>
    requires { IsHeld badge.old.views }
    ensures book { result.table_id ≡ badge.old.table_id }
    ensures out { result.me ≡ (at_rest (lane_of (held_by badge.old.table_id T.nowhere badge.old.views) ∷ []), []) }
{
    mem::replace(badge, Badge::blank()).into_seat::<T>()
}
