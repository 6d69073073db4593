//! What lies in a book, and the work that is done to it.
ghost use Rattle.std.specs.Prelude.{◌≡◌, ℕ, true, List, [], ◌∷◌, ◌++◌, length, IfOk, IfErr};
ghost use Rattle.lvs_book.specs.Lanes.{stands, naming};

use lvs_types::NoMemory;

/// A value with its history. Contracts see two things of it: its origin, which no work changes, and
/// the list of its acts. Each act names one lane or two different lanes; a lane is the number of a pass.
pub trait Journal {
    /// Plain data that no work changes. No value of it is made.
    type Origin;

    /// What one work adds to the history.
    type Act;

    ghost origin: { Self → Self.Origin };

    ghost acts: { Self → List Self.Act };

    // The lanes that an act names.
    ghost names: { Self.Act → List ℕ };

    // Some origin. It stands where there is none, and no clause rests on it.
    ghost nowhere: { Self.Origin };

    /// The number of acts.
    fn count(&self) -> u64
        ensures { result ≡ length (acts self.now) };
}

/// A change of the value in a book, which adds one act or finds no memory for it.
///
/// It doesn't wait: it runs while its pass has the turn.
pub trait Work<T: Journal> {
    /// What it answers.
    type Out;

    // The lanes that it names.
    ghost lanes: { Self → List ℕ };

    // The origin of the value that it is for.
    ghost origin: { Self → T.Origin };

    // For each of its lanes the acts that name it.
    ghost lists: { Self → ℕ → List T.Act };

    // The first test: which act, answer and later work may follow.
    ghost first: { Self → T.Act → Self.Out → Self → Type 0 };

    // The second test: which later work may follow where there was no memory.
    ghost second: { Self → Self → Type 0 };

    /// Adds exactly one act, which names just its lanes. Where there is no memory, the value is as before.
    fn work(&mut self, value: &mut T) -> Result<Self::Out, NoMemory>
        requires origin { T.origin value.old ≡ origin self.old }
        requires lists { (k : ℕ) → stands k (lanes self.old) ≡ true → naming T.names k (T.acts value.old) ≡ lists self.old k }
        ensures ok { IfOk result (λ out. (a : T.Act) × (T.acts value.new ≡ T.acts value.old ++ a ∷ []) × (T.origin value.new ≡ T.origin value.old) × ((k : ℕ) → stands k (T.names a) ≡ stands k (lanes self.old)) × first self.old a out self.new) }
        ensures err { IfErr result (λ _. (value.new ≡ value.old) × second self.old self.new) };
}
