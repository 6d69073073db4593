//! The lines that an open listing is still to have.
ghost use Rattle.std.specs.Prelude.{◌≡◌, List, ℕ, [], ◌∷◌, ◌+◌, ◌≤◌, length};
ghost use Rattle.std.specs.List.{slice_split};
ghost use Rattle.std.specs.Option.{option_map};
ghost use Rattle.lvs_model.specs.Lines.{is_feed};
ghost use Rattle.lvs_check.specs.Texts.{lines_from_place, IsFirst};

use lvs_lines::cut_line;
use std::alloc::Global;
use std::marker::Model;

/// The lines of a text from a place on.
#[derive(Drop)]
pub(crate) struct Due {
    text: Vec<u8>,
    /// Past the text's end where no line is left.
    at: usize,
}

impl Model for Due {
    ghost use Rattle.std.specs.Prelude.{List, ℕ, length, ◌≤◌, ◌+◌};
    ghost use Rattle.lvs_check.specs.Texts.{lines_from_place};

    ghost Value = { List (List ℕ) };

    ghost view = { λ d. lines_from_place d.text.items d.at };

    ghost invariant = { λ d. d.at ≤ length d.text.items + 1 };
}

/// The first line of a text, or all of it.
fn first_line(text: &[u8]) -> &[u8]
    ensures first { slice_split is_feed text.now ≡ result.now ∷ lines_from_place text.now (length result.now + 1) }
    ensures within { length result.now ≤ length text.now }
{
    match cut_line(text) {
        Some((line, _later)) => line,
        None => text,
    }
}

impl Due {
    /// No line.
    pub(crate) fn none(alloc: Global) -> Due
        ensures { result ≡ [] }
    {
        Due {
            text: Vec::new(alloc),
            at: 1,
        }
    }

    /// The lines of a text.
    pub(crate) fn lines(text: Vec<u8>) -> Due
        ensures { result ≡ slice_split is_feed text.items }
    {
        Due { text, at: 0 }
    }

    /// The next line, where one is left.
    pub(crate) fn next(&self) -> Option<&[u8]>
        ensures { IsFirst self.now (option_map (λ line. line.now) result) }
    {
        if self.at > self.text.len() {
            return None;
        }
        Some(first_line(&self.text[self.at..]))
    }

    /// Leaves the next line out.
    pub(crate) fn pop(&mut self)
        ensures { (line : List ℕ) (later : List (List ℕ)) → self.old ≡ line ∷ later → self.new ≡ later }
    {
        if self.at <= self.text.len() {
            self.at += first_line(&self.text[self.at..]).len() + 1;
        }
    }
}
