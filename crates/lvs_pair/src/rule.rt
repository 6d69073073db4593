//! The rule over the relay's queue, and what each kind of step on it tells.
ghost use Rattle.std.specs.Prelude.{◌≡◌, ◌≤◌, length};
ghost use Rattle.lvs_pair.specs.Sides.{Holds, Leads, posted_of, with_posted, with_taken};

use crossbeam_queue::protocol::{Join, Lesson, Outcome, Protocol, Split};
use crossbeam_queue::{Pass, RuledArrayQueue};
use lvs_types::Bytes;
use std::collections::LinkedList;

/// What the holder of a pass may do, and what it has done. No value of it is made.
pub enum Side {
    /// It may post and take: what was posted, and what was taken.
    Both(LinkedList<Bytes>, LinkedList<Bytes>),
    /// It may post: what was posted.
    Posts(LinkedList<Bytes>),
    /// It may take: what was taken.
    Takes(LinkedList<Bytes>),
    /// Another has taken its part over.
    Spent,
}

/// What was taken, and then what the queue holds, is what was posted.
pub(crate) struct InOrder;

impl Protocol<Bytes, Side> for InOrder {
    ghost use Rattle.lvs_pair.specs.Rule.{Relayed};
    ghost use Rattle.lvs_pair.specs.Sides.{begun};

    ghost holds = { Relayed };

    ghost first = { begun };
}

/// The kind of step that posts a message.
pub(crate) struct Post;

impl Outcome<Bytes, Side> for Post {
    ghost then = { λ side message later. later ≡ with_posted message side };
}

impl Lesson<Bytes, Side> for Post {
    ghost fact = { λ side messages. length messages ≤ length (posted_of side) };
}

/// The kind of step that takes a message.
pub(crate) struct Take;

impl Outcome<Bytes, Side> for Take {
    ghost then = { λ side message later. (later ≡ with_taken message side) × Leads side message };
}

impl Lesson<Bytes, Side> for Take {
    ghost fact = { Holds };
}

/// The kind of step at the beginning: one may post from then on, and another may take.
pub(crate) struct Part;

impl Split<Side> for Part {
    ghost use Rattle.lvs_pair.specs.Sides.{poster_of, taker_of};

    ghost left = { poster_of };

    ghost right = { taker_of };
}

/// The kind of step at the end: both have ended, and one has what both did.
pub(crate) struct Rejoin;

impl Join<Side> for Rejoin {
    ghost use Rattle.lvs_pair.specs.Sides.{both_of, spent};

    ghost both = { both_of };

    ghost spent = { spent };
}

/// The queue between the two.
pub(crate) type Queue = RuledArrayQueue<Bytes, Side, InOrder>;

/// What one of the two knows of the queue. It has no bytes.
pub(crate) type Place = Pass<Bytes, Side>;
