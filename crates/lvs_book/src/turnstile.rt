//! The table under a book: three words, one slot, and the rule that each step keeps.
ghost use Rattle.std.specs.Prelude.{◌≡◌, ◌<◌};

use crate::journal::Journal;
use crate::view::View;
use atomic_table::{Seat, Table, TableRule};
use std::alloc::Global;
use std::snapshot::Snapshot;

/// The word that holds the next ticket.
pub(crate) const TICKET: usize = 0;

/// The word that holds the ticket that is served.
pub(crate) const SERVING: usize = 1;

/// The word that holds the number of acts.
pub(crate) const COUNT: usize = 2;

/// What is fixed when the book begins: the value as it then was, and how many lanes there are.
#[derive(Drop)]
pub(crate) struct Terms<T> {
    pub(crate) opened: Snapshot<T>,
    pub(crate) lanes: u32,
}

/// The rule of a book (specs/Rule.antt). The first seat has all lanes.
pub(crate) struct BookRule;

impl<T: Journal> TableRule<T, View<T::Origin, T::Act>, Terms<T>> for BookRule {
    ghost use Rattle.lvs_book.specs.Lanes.{new_lanes};
    ghost use Rattle.lvs_book.specs.Rule.{Kept};
    ghost use Rattle.lvs_book.specs.Steps.{at_rest};

    ghost holds = { λ terms. Kept T.origin T.acts T.names terms.lanes (T.origin terms.opened.value) };

    ghost first = { λ terms. at_rest (new_lanes (T.origin terms.opened.value) 0 terms.lanes) };
}

/// A pass while a call works with it.
pub(crate) type BookSeat<T: Journal> = Seat<T, View<T::Origin, T::Act>>;

#[derive(Drop)]
pub(crate) struct Turnstile<T: Journal> {
    pub(crate) table: Table<T, View<T::Origin, T::Act>, Terms<T>, BookRule, Global>,
    ghost sized: { (table.shared.table_id.words ≡ 3) × (table.shared.table_id.slots ≡ 1) },
    ghost some: { 0 < table.shared.key.lanes },
}
