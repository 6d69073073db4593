//! The book of a round as a type, so that what lies behind the locks and in the seats is known to be of one book.
use std::marker::Brand;

/// Names one book: its identity, and what it began with. The caller says which one where it passes
/// `Brand` to the function that runs a round.
pub trait RoundName {
    ghost use Rattle.lvs_book.specs.Passes.{BookIs};
    ghost use Rattle.lvs_shared.specs.declared.origin.Opened.{Opened};

    ghost book: { BookIs Opened };
}

impl RoundName for Brand {
    ghost use Rattle.lvs_shared.specs.Locked.{no_book};

    ghost book = { no_book };
}
