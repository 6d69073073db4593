//! For the tests: numbered notes as a journal, and the works that add one.
ghost use Rattle.std.specs.Prelude.{◌≡◌, []};

use crate::{Journal, Pass, Work};
use lvs_types::NoMemory;
use std::alloc::Global;
use std::marker::Model;
use std::snapshot::Snapshot;

/// A note of one lane, or of two.
#[derive(Clone, Copy, Debug, PartialEq, Eq)]
pub(crate) struct Note {
    pub(crate) lane: u64,
    pub(crate) beside: Option<u64>,
    pub(crate) number: u64,
}

/// The title is the origin.
#[derive(Drop)]
pub(crate) struct Notes {
    title: u64,
    pub(crate) notes: Vec<Note>,
}

impl Model for Notes {
    ghost use Rattle.std.specs.Prelude.{ℕ, List};
    ghost use Rattle.lvs_book.specs.declared.notes.Note.{Note};

    ghost Value = { ℕ × List Note };

    ghost view = { λ n. (n.title, n.notes.items) };
}

impl Notes {
    pub(crate) fn new(alloc: Global, title: u64) -> Notes
        ensures { result ≡ (title, []) }
    {
        Notes {
            title,
            notes: Vec::new(alloc),
        }
    }
}

impl Journal for Notes {
    type Origin = u64;

    type Act = Note;

    ghost use Rattle.std.specs.Prelude.{◌∷◌, [], option_map, unwrap_or};

    ghost origin = { λ n. n.0 };

    ghost acts = { λ n. n.1 };

    ghost names = { λ a. unwrap_or (option_map (λ b. a.lane ∷ b ∷ []) a.beside) (a.lane ∷ []) };

    ghost nowhere = { 0 };

    fn count(&self) -> u64 {
        self.notes.len() as u64
    }
}

/// Adds a note of the pass `own`, and of the pass `shared` where a lane stands beside.
#[derive(Drop)]
pub(crate) struct Enter {
    pub(crate) note: Note,
    pub(crate) own: Snapshot<Pass<Notes>>,
    pub(crate) shared: Snapshot<Pass<Notes>>,
}

impl Work<Notes> for Enter {
    type Out = ();

    ghost use Rattle.std.specs.Prelude.{◌∷◌, [], eqb, cond, option_map, unwrap_or};

    ghost lanes = { λ w. unwrap_or (option_map (λ b. w.note.lane ∷ b ∷ []) w.note.beside) (w.note.lane ∷ []) };

    ghost origin = { λ w. w.own.value.origin };

    ghost lists = { λ w k. cond (eqb w.note.lane k) w.own.value.acts w.shared.value.acts };

    ghost first = { λ w a out later. (a ≡ w.note) × (later ≡ w) };

    ghost second = { λ w later. later ≡ w };

    fn work(&mut self, value: &mut Notes) -> Result<(), NoMemory> {
        match value.notes.push(self.note) {
            Ok(()) => Ok(()),
            Err(_) => Err(NoMemory),
        }
    }
}

/// Finds no memory, once or always.
#[derive(Drop)]
pub(crate) struct Refuse {
    pub(crate) lane: u64,
    pub(crate) own: Snapshot<Pass<Notes>>,
}

impl Work<Notes> for Refuse {
    type Out = ();

    ghost use Rattle.std.specs.Prelude.{◌∷◌, []};

    ghost lanes = { λ w. w.lane ∷ [] };

    ghost origin = { λ w. w.own.value.origin };

    ghost lists = { λ w k. w.own.value.acts };

    ghost first = { λ w a out later. ⊥ };

    ghost second = { λ w later. later ≡ w };

    fn work(&mut self, _value: &mut Notes) -> Result<(), NoMemory> {
        Err(NoMemory)
    }
}
