//! Laws of the definitions. A function without a body carries each of them.
ghost use Rattle.std.specs.Prelude.{ℕ, ◌+◌, ◌<◌};
ghost use Rattle.lvs_types.specs.declared.addr.Addr.{Addr};
ghost use Rattle.lvs_types.specs.declared.addr.DestId.{DestId};
ghost use Rattle.lvs_types.specs.declared.item.Item.{Item};
ghost use Rattle.lvs_model.specs.State.{State, initial};
ghost use Rattle.lvs_model.specs.Step.{step, IsInRange};
ghost use Rattle.lvs_model.specs.Counted.{IsNumbered, IsNumberedServer, AreCountedEntries, IsCounted};

/// A director begins with numbers of no steps, and each step moves them by one at most: every id and
/// every count of packets stays at most the number of steps and one more, each of a server's three
/// numbers at most the number of steps, and the pending records at most twice that, so no sum passes
/// the end of its type. The counts of packets follow by themselves, and so do the other numbers.
pub fn numbers_follow_the_steps()
    ensures begins { (local : Addr) (buckets : ℕ) → 0 < buckets → IsCounted 0 (initial local buckets) }
    ensures goes_on { (steps : ℕ) (s : State) (item : Item) → IsInRange item → IsCounted steps s → IsCounted (steps + 1) (step s item).1 }
    ensures numbers { (steps : ℕ) (s : State) (item : Item) → IsInRange item → IsNumbered steps s → IsNumbered (steps + 1) (step s item).1 }
    ensures packets { (steps : ℕ) (s : State) (item : Item) → AreCountedEntries steps s.entries → AreCountedEntries (steps + 1) (step s item).1.entries }
    ensures servers { (steps : ℕ) (s : State) (id : DestId) → IsNumbered steps s → IsNumberedServer steps s id }
{}
