//! The value in the book of a round: the board, and beside it the change of each act.
ghost use Rattle.std.specs.Prelude.{◌≡◌, ◌+◌, ◌++◌, ◌∷◌, [], IfOk, IfErr, OnOk, OnErr};
ghost use Rattle.lvs_board.specs.Stands.{StandsFor};
ghost use Rattle.lvs_shared.specs.declared.origin.Act.{Act};
ghost use Rattle.lvs_shared.specs.Openings.{begun, IsOpened};
ghost use Rattle.lvs_shared.specs.Acts.{left};
ghost use Rattle.lvs_shared.specs.Played.{seen_of, FitsFor, IsLeft, IsPlayed, MayPlay, Notes};

use crate::origin::{Act, Opened};
use lvs_board::Board;
use lvs_book::Journal;
use lvs_rules::Whole;
use lvs_types::{Change, Found, NoMemory, Placed};
use std::alloc::Global;
use std::marker::{Brand, Model};
use std::snapshot::Snapshot;

/// What lies in the book of a round. Contracts see where it began, and its acts.
///
/// The board stands for the state that the acts leave, though it holds no entry: its totals count
/// those of all buckets, which the changes of the acts make of the opening ones.
#[derive(Drop)]
pub struct Played {
    board: Board,
    changes: Vec<Change>,
    origin: Snapshot<Opened>,
}

impl Model for Played {
    ghost use Rattle.lvs_shared.specs.Played.{seen_of, IsPlayed, PlayedSeen};

    ghost Value = { PlayedSeen };

    ghost view = { λ p. seen_of p.origin.value p.board p.changes.items };

    ghost invariant = { λ p. IsPlayed p.origin.value p.board p.changes.items };
}

impl Journal for Played {
    type Origin = Opened;

    type Act = Act;

    ghost use Rattle.lvs_shared.specs.Openings.{nowhere};

    ghost origin = { λ p. p.origin };

    ghost acts = { λ p. p.acts };

    ghost names = { λ a. a.lanes };

    ghost nowhere = { nowhere };

    fn count(&self) -> u64 {
        self.changes.len() as u64
    }
}

/// The board takes the next item, and its change is kept beside it. `W.whole` is the state that the
/// acts so far leave.
fn decide_next<W: Whole>(
    alloc: Global,
    board: &mut Board,
    changes: &mut Vec<Change>,
    origin: &Snapshot<Opened>,
    placed: Placed,
    found: Found,
) -> Result<Change, (Placed, NoMemory)>
    requires whole { W.whole ≡ left origin.now.value (seen_of origin.now.value board.old changes.old.items).acts }
    requires played { IsPlayed origin.now.value board.old changes.old.items }
    requires may { MayPlay (seen_of origin.now.value board.old changes.old.items) placed found }
    ensures ok { IfOk result (λ change. (act : Act) × ((seen_of origin.now.value board.new changes.new.items).acts ≡ (seen_of origin.now.value board.old changes.old.items).acts ++ act ∷ []) × (act.change ≡ change) × Notes origin.now.value placed act × FitsFor origin.now.value placed.item change (seen_of origin.now.value board.old changes.old.items).acts) }
    ensures played { OnOk result (IsPlayed origin.now.value board.new changes.new.items) }
    ensures back { IfErr result (λ e. e.0 ≡ placed) }
    ensures err { OnErr result ((board.new ≡ board.old) × (changes.new.items ≡ changes.old.items)) }
{
    let Placed {
        actor,
        number,
        item,
    } = placed;
    let Ok(()) = changes.reserve(1) else {
        let placed = Placed {
            actor,
            number,
            item,
        };
        return Err((placed, NoMemory));
    };
    match board.decide::<W>(alloc, actor, number, item, found) {
        Ok(change) => {
            changes.push_reserved(change);
            Ok(change)
        }
        Err((item, cause)) => {
            let placed = Placed {
                actor,
                number,
                item,
            };
            Err((placed, cause))
        }
    }
}

impl Played {
    /// The board of a core, before the first act.
    pub(crate) fn new(alloc: Global, board: Board, origin: Snapshot<Opened>) -> Played
        requires opened { IsOpened origin.value }
        requires stands { StandsFor board (begun origin.value) }
        requires book { board.book ≡ [] }
        requires steps { board.steps ≡ origin.value.core.steps }
        ensures origin { result.origin ≡ origin.value }
        ensures acts { result.acts ≡ [] }
    {
        Played {
            board,
            changes: Vec::new(alloc),
            origin,
        }
    }

    /// The next act of an actor, given what the item's bucket has for it: the change of the bucket is
    /// answered. For want of memory the item comes back, and all is as before.
    pub(crate) fn play(
        &mut self,
        alloc: Global,
        placed: Placed,
        found: Found,
    ) -> Result<Change, (Placed, NoMemory)>
        requires { MayPlay self.old placed found }
        ensures ok { IfOk result (λ change. (act : Act) × (self.new.acts ≡ self.old.acts ++ act ∷ []) × (self.new.origin ≡ self.old.origin) × (act.change ≡ change) × Notes self.old.origin placed act × FitsFor self.old.origin placed.item change self.old.acts) }
        ensures err { IfErr result (λ e. (e.0 ≡ placed) × (self.new ≡ self.old)) }
    {
        decide_next::<Brand>(
            alloc,
            &mut self.board,
            &mut self.changes,
            &self.origin,
            placed,
            found,
        )
    }

    /// The board, once the book is closed.
    pub(crate) fn into_board(self) -> Board
        ensures { IsLeft self result }
    {
        let Played {
            board,
            changes: _,
            origin: _,
        } = self;
        board
    }
}
