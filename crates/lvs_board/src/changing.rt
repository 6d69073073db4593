//! How the change of the item's bucket follows its entry.
ghost use Rattle.std.specs.Prelude.{◌≡◌};
ghost use Rattle.lvs_board.specs.Desks.{with_entry, with_update, with_end};

use lvs_types::{Change, Entry};

/// A new entry comes.
pub(crate) fn entering(change: &Change, e: &Entry) -> Change
    ensures { result ≡ with_entry e.now change.now }
{
    match *change {
        Change::End(id) => Change::Swap(id, *e),
        _ => Change::Put(*e),
    }
}

/// The entry of the item becomes this one.
pub(crate) fn updating(change: &Change, e: &Entry) -> Change
    ensures { result ≡ with_update e.now change.now }
{
    match *change {
        Change::Put(_) => Change::Put(*e),
        Change::Swap(id, _) => Change::Swap(id, *e),
        _ => Change::Update(*e),
    }
}

/// The entry of the item, which has this id, leaves.
pub(crate) fn ending(change: &Change, id: u64) -> Change
    ensures { result ≡ with_end id change.now }
{
    match *change {
        Change::Put(_) => Change::Keep,
        Change::Swap(gone, _) => Change::End(gone),
        _ => Change::End(id),
    }
}
