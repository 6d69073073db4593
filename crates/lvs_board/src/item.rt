//! The item that the desk decides, as a type.
ghost use Rattle.std.specs.Prelude.{ℕ, Option, None};

use lvs_rules::Whole;
use std::marker::{Brand, PhantomData};

/// What is known of the item before it is decided. Whoever decides it names both.
pub(crate) trait Home {
    /// The id of the entry that was found.
    ghost home: { Option ℕ };

    /// The bucket whose sweep the item is.
    ghost sweep: { Option ℕ };
}

impl Home for Brand {
    ghost home = { None };

    ghost sweep = { None };
}

/// The state before an item, and what is known of the item.
pub(crate) struct AtItem<W: Whole, H: Home> {
    whole: PhantomData<W>,
    home: PhantomData<H>,
}

impl<W: Whole, H: Home> Whole for AtItem<W, H> {
    ghost whole = { W.whole };
}
