//! The director.
ghost use Rattle.std.specs.Prelude.{◌≡◌, ◌+◌, ◌<◌, ◌≤◌, ◌^◌, IfOk, IfErr, OnErr, OnOk};
ghost use Rattle.lvs_model.specs.Snapshots.{snapshot_of};
ghost use Rattle.lvs_model.specs.State.{State, initial};
ghost use Rattle.lvs_model.specs.Step.{step, IsInRange};
ghost use Rattle.lvs_model.specs.WellFormed.{IsWellFormed};
ghost use Rattle.lvs_core.specs.Agree.{Agree};
ghost use Rattle.lvs_core.specs.Laws.{Keeps, Releases, TakesOver};

use crate::buckets::make_buckets;
use crate::snapshot::show;
use crate::stepping::answer;
use lvs_board::Board;
use lvs_bucket::Bucket;
use lvs_types::{Addr, Item, NoMemory, Reply, Snapshot};
use std::alloc::Global;
use std::marker::{Brand, Model};

/// The director over a board and its buckets. A contract sees it as the state that they make
/// together, and the number of steps that it has taken.
#[derive(Drop)]
pub struct Core {
    board: Board,
    buckets: Vec<Bucket>,
}

impl Model for Core {
    ghost use Rattle.lvs_core.specs.Seen.{CoreSeen};

    ghost Value = { CoreSeen };

    ghost use Rattle.lvs_core.specs.Agree.{Agree, state_of};

    ghost view = { λ c. record { state = state_of c.board c.buckets.items; steps = c.board.steps } };

    ghost invariant = { λ c. Agree c.board c.buckets.items (state_of c.board c.buckets.items) };
}

impl Core {
    /// A director with nothing in it: its tunnels begin at the address, and its entries stand in so
    /// many buckets, 1 to 256.
    pub fn new(alloc: Global, local: Addr, buckets: u32) -> Result<Core, NoMemory>
        requires some { 0 < buckets }
        requires few { buckets ≤ 256 }
        ensures state { IfOk result (λ c. c.state ≡ initial local buckets) }
        ensures steps { IfOk result (λ c. c.steps ≡ 0) }
    {
        let buckets = make_buckets(alloc, buckets)?;
        let board = Board::new(alloc, local)?;
        Ok(Core { board, buckets })
    }

    /// How many steps it has taken.
    pub fn steps(&self) -> u64
        ensures { result ≡ self.now.steps }
    {
        self.board.steps()
    }

    /// All that it keeps, in the order in which listings show it. Its state is well formed.
    pub fn snapshot(&self, alloc: Global) -> Result<Snapshot, NoMemory>
        ensures shown { IfOk result (λ s. s ≡ snapshot_of self.now.state) }
        ensures well_formed { IsWellFormed self.now.state }
    {
        show::<Brand>(alloc, &self.board, &self.buckets)
    }

    /// Takes an item: the definition's reply, and the definition's next state. For want of memory
    /// everything is as before. The item is copied; `step_owned` takes it as it is.
    pub fn step(&mut self, alloc: Global, item: &Item) -> Result<Reply, NoMemory>
        requires in_range { IsInRange item.now }
        requires young { self.old.steps < 2 ^ 62 }
        ensures ok { IfOk result (λ r. (r, self.new.state) ≡ step self.old.state item.now) }
        ensures steps { OnOk result (self.new.steps ≡ self.old.steps + 1) }
        ensures err { OnErr result (self.new ≡ self.old) }
        ensures well_formed { OnOk result (IsWellFormed self.new.state) }
        ensures keep { IfOk result (λ r. Keeps self.old.state item.now (r, self.new.state)) }
        ensures release { IfOk result (λ r. Releases self.old.state item.now (r, self.new.state)) }
        ensures takeover { IfOk result (λ r. TakesOver self.old.state item.now (r, self.new.state)) }
    {
        let copy = item.copy(alloc)?;
        match self.step_owned(alloc, copy) {
            Ok((_, reply)) => Ok(reply),
            Err((_, cause)) => Err(cause),
        }
    }

    /// Takes an item as `step` does, without a copy of its bytes: the item comes back with its reply,
    /// or with the want of memory.
    pub fn step_owned(
        &mut self,
        alloc: Global,
        item: Item,
    ) -> Result<(Item, Reply), (Item, NoMemory)>
        requires in_range { IsInRange item }
        requires young { self.old.steps < 2 ^ 62 }
        ensures ok { IfOk result (λ r. (r.1, self.new.state) ≡ step self.old.state item) }
        ensures item { IfOk result (λ r. r.0 ≡ item) }
        ensures steps { OnOk result (self.new.steps ≡ self.old.steps + 1) }
        ensures back { IfErr result (λ e. e.0 ≡ item) }
        ensures err { OnErr result (self.new ≡ self.old) }
        ensures well_formed { OnOk result (IsWellFormed self.new.state) }
        ensures keep { IfOk result (λ r. Keeps self.old.state item (r.1, self.new.state)) }
        ensures release { IfOk result (λ r. Releases self.old.state item (r.1, self.new.state)) }
        ensures takeover { IfOk result (λ r. TakesOver self.old.state item (r.1, self.new.state)) }
    {
        answer::<Brand>(alloc, &mut self.board, &mut self.buckets, item)
    }

    /// The board and the buckets, which agree about the director's state: bucket `i` has number `i`.
    pub fn into_parts(self) -> (Board, Vec<Bucket>)
        ensures agree { Agree result.0 result.1.items self.state }
        ensures steps { result.0.steps ≡ self.steps }
    {
        (self.board, self.buckets)
    }

    /// The director of a board and buckets that agree about a state.
    pub fn from_parts(board: Board, buckets: Vec<Bucket>) -> Core
        requires { (s : State) × Agree board buckets.items s }
        ensures state { (s : State) → Agree board buckets.items s → result.state ≡ s }
        ensures steps { result.steps ≡ board.steps }
    {
        Core { board, buckets }
    }
}
