//! The kinds of step on a word. Each keeps the rule of the book from any state that meets it, and tells
//! the pass that takes it what it then knows (specs/Steps.antt).
ghost use Rattle.std.specs.Prelude.{◌++◌, ◌⊎◌, []};
ghost use Rattle.lvs_book.specs.Lanes.{first_lane, other_lanes};
ghost use Rattle.lvs_book.specs.Steps.{drawn, looked, turned, committed, raised, at_rest};

use crate::journal::Journal;
use crate::view::View;
use atomic_table::{Join, Play, Split};

/// Draw, an addition to the next ticket: the pass waits with the number that it found.
pub(crate) struct Draw;

impl<S, O, A> Play<S, View<O, A>> for Draw {
    ghost then = { λ _. drawn };
}

/// Look and turn, a load of the ticket that is served. At another number than its own the pass waits on.
/// At its own the same step takes the value: the pass has the turn, and notes the acts that it found.
pub(crate) struct Look;

impl<T: Journal> Play<T, View<T::Origin, T::Act>> for Look {
    ghost then = { λ _ m r after. turned T.origin T.acts T.names m r after ⊎ looked m r after };
}

/// Commit, an addition to the count: the lists of the pass's lanes grow by the act.
pub(crate) struct Commit;

impl<T: Journal> Play<T, View<T::Origin, T::Act>> for Commit {
    ghost then = { λ _. committed T.origin T.acts T.names };
}

/// Raise, an addition to the ticket that is served: the same step gives the value back, and the pass is out.
pub(crate) struct Raise;

impl<S, O, A> Play<S, View<O, A>> for Raise {
    ghost then = { λ _. raised };
}

/// Split: a pass that is out keeps its first lane, and a new one has the others.
pub(crate) struct Part;

impl<O, A> Split<View<O, A>> for Part {
    ghost left = { λ v. at_rest (first_lane v.lanes) };

    ghost right = { λ v. at_rest (other_lanes v.lanes) };
}

/// Join: a pass that is out takes over the lanes of another that is out, which is then spent.
pub(crate) struct TakeOver;

impl<O, A> Join<View<O, A>> for TakeOver {
    ghost both = { λ v w. at_rest (v.lanes ++ w.lanes) };

    ghost spent = { at_rest [] };
}
