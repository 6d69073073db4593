//! For the tests: a pass behind a lock, which is known to be of one book.
ghost use Rattle.std.specs.Prelude.{◌≡◌, ◌<◌};

use crate::notes::{Enter, Note, Notes};
use crate::{Book, Pass};
use lvs_types::NoMemory;
use std::marker::{Brand, Model, PhantomData};
use std::snapshot::Snapshot;
use std::sync::Wait;

/// Names one book, so that the pass behind a lock is known to be of it.
pub(crate) trait BookName {
    ghost use Rattle.atomic_table.specs.Seated.{TableId};

    ghost book: { TableId };
}

impl BookName for Brand {
    ghost use Rattle.std.specs.Prelude.{[]};

    ghost book = { record { words = 0; slots = 0; views_name = 0; atom = 0; block = 0; offset = 0; slot_names = [] } };
}

/// The pass of lane 2, which both threads use.
#[derive(Drop)]
pub(crate) struct Shared<N: BookName> {
    pass: Pass<Notes>,
    of: PhantomData<N>,
}

impl<N: BookName> Model for Shared<N> {
    ghost use Rattle.std.specs.Prelude.{◌≡◌, ℕ};
    ghost use Rattle.lvs_book.specs.declared.notes.Note.{Note};
    ghost use Rattle.lvs_book.specs.Passes.{Held};

    ghost Value = { Held ℕ Note };

    ghost view = { λ s. s.pass };

    ghost invariant = { λ s. (s.pass.book ≡ N.book) × (s.pass.lane ≡ 2) };
}

impl<N: BookName> Shared<N> {
    pub(crate) fn new(pass: Pass<Notes>) -> Shared<N>
        requires { (pass.book ≡ N.book) × (pass.lane ≡ 2) }
    {
        Shared {
            pass,
            of: PhantomData,
        }
    }

    /// A note of the lane and of lane 2.
    pub(crate) fn enter_both<R: Wait>(
        &mut self,
        rt: &R,
        book: &Book<Notes>,
        own: &mut Pass<Notes>,
        lane: u64,
        number: u64,
    ) -> Result<(), NoMemory>
        requires { (book.now.id ≡ N.book) × (own.old.book ≡ N.book) × (own.old.lane ≡ lane) × (lane < 2) }
        ensures { (own.new.book ≡ own.old.book) × (own.new.lane ≡ own.old.lane) }
    {
        let note = Note {
            lane,
            beside: Some(2),
            number,
        };
        let mut work = Enter {
            note,
            own: Snapshot::of(own),
            shared: Snapshot::of(&self.pass),
        };
        book.commit_pair(rt, own, &mut self.pass, &mut work)
    }

    pub(crate) fn into_pass(self) -> Pass<Notes>
        ensures { (result.book ≡ N.book) × (result.lane ≡ 2) }
    {
        let Shared { pass, of: _ } = self;
        pass
    }
}
