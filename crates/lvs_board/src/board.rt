//! The board.
ghost use Rattle.std.specs.Prelude.{◌≡◌, ℕ, ◌+◌, ◌<◌, ◌^◌, ◌++◌, ◌∷◌, [], IfOk, OnOk, IfErr, OnErr, length, ◌-◌, slice_get};
ghost use Rattle.std.specs.Option.{option_copied};
ghost use Rattle.lvs_model.specs.State.{State, initial};
ghost use Rattle.lvs_model.specs.Step.{step, IsInRange};
ghost use Rattle.lvs_model.specs.Buckets.{look_up, Carries};
ghost use Rattle.lvs_model.specs.Counted.{IsCounted};
ghost use Rattle.lvs_model.specs.WellFormed.{IsWellFormed};
ghost use Rattle.lvs_board.specs.Seen.{noted};
ghost use Rattle.lvs_board.specs.Stands.{StandsFor, shown_tables};

use crate::deciding::decide_item;
use crate::desk::Desk;
use lvs_rules::Whole;
use lvs_types::{Addr, Change, Found, Item, NoMemory, Noted, Snapshot};
use std::alloc::Global;
use std::marker::{Brand, Model};
use std::mem;

/// Services, servers, templates, settings, daemons and pending records, with the book of what was
/// asked and answered. It has no entries: the buckets have them.
#[derive(Drop)]
pub struct Board {
    desk: Desk,
    book: Vec<Noted>,
    steps: u64,
}

impl Model for Board {
    ghost use Rattle.lvs_board.specs.Seen.{BoardSeen};
    ghost use Rattle.lvs_board.specs.Desks.{seen_of};

    ghost Value = { BoardSeen };

    ghost view = { λ b. record { tables = seen_of b.desk; book = b.book.items; steps = b.steps } };
}

impl Board {
    /// A board with nothing on it: its tunnels begin at the address.
    pub fn new(alloc: Global, local: Addr) -> Result<Board, NoMemory>
        ensures stands { IfOk result (λ b. (buckets : ℕ) → StandsFor b (initial local buckets)) }
        ensures book { IfOk result (λ b. b.book ≡ []) }
        ensures steps { IfOk result (λ b. b.steps ≡ 0) }
    {
        Ok(Board {
            desk: Desk::empty(alloc, local)?,
            book: Vec::new(alloc),
            steps: 0,
        })
    }

    /// How many items it has taken.
    pub fn steps(&self) -> u64
        ensures { result ≡ self.now.steps }
    {
        self.steps
    }

    /// The present moment, in seconds.
    pub fn moment(&self) -> u64
        ensures { result ≡ self.now.tables.now }
    {
        self.desk.moment
    }

    /// The act that was noted last.
    pub fn last(&self) -> Option<&Noted>
        ensures { option_copied result ≡ slice_get self.now.book (length self.now.book - 1) }
    {
        self.book.last()
    }

    /// Hands out the acts of the book, which is empty then. Nothing else changes.
    pub fn take_acts(&mut self, alloc: Global) -> Vec<Noted>
        ensures acts { result.items ≡ self.old.book }
        ensures rest { self.new ≡ record self.old { book = [] } }
    {
        mem::replace(&mut self.book, Vec::new(alloc))
    }

    /// All that it keeps, in the order in which listings show it, without entries: the snapshot of
    /// the state that it stands for with its entries, but these.
    pub fn tables(&self, alloc: Global) -> Result<Snapshot, NoMemory>
        ensures { IfOk result (λ t. (s : State) → StandsFor self.now s → t ≡ shown_tables s) }
    {
        self.desk.show(alloc)
    }

    /// Takes an item, given what its bucket has for it: one act is noted, with the definition's
    /// reply, and the change of the bucket's entries is answered. For want of memory the item comes
    /// back, and the board is as before. `W.whole` is the state that the board and its entries make
    /// together.
    pub fn decide<W: Whole>(
        &mut self,
        alloc: Global,
        actor: u32,
        number: u64,
        item: Item,
        found: Found,
    ) -> Result<Change, (Item, NoMemory)>
        requires stands { StandsFor self.old W.whole }
        requires well_formed { IsWellFormed W.whole }
        requires counted { IsCounted self.old.steps W.whole }
        requires young { self.old.steps < 2 ^ 62 }
        requires in_range { IsInRange item }
        requires found { found ≡ look_up W.whole item }
        ensures stands { OnOk result (StandsFor self.new (step W.whole item).1) }
        ensures book { OnOk result (self.new.book ≡ self.old.book ++ noted actor number item (step W.whole item).0 ∷ []) }
        ensures steps { OnOk result (self.new.steps ≡ self.old.steps + 1) }
        ensures change { IfOk result (λ change. Carries W.whole item change) }
        ensures back { IfErr result (λ e. e.0 ≡ item) }
        ensures err { OnErr result (self.new ≡ self.old) }
    {
        if self.book.reserve(1).is_err() {
            return Err((item, NoMemory));
        }
        self.desk.begin(&item, &found);
        match decide_item::<W, Brand>(alloc, &mut self.desk, &item, &found) {
            Ok(reply) => {
                self.book.push_reserved(Noted {
                    actor,
                    number,
                    item,
                    reply,
                });
                self.steps += 1;
                Ok(self.desk.change)
            }
            Err(NoMemory) => Err((item, NoMemory)),
        }
    }
}
