//! One round, in the one order of `serial`.
ghost use Rattle.std.specs.Prelude.{◌≡◌, ◌+◌, ◌≤◌, ◌^◌, map, length, IfOk, OnOk};
ghost use Rattle.lvs_model.specs.Step.{AreInRange};
ghost use Rattle.lvs_model.specs.Plans.{items_of_lines};
ghost use Rattle.lvs_model.specs.Books.{IsRun, placed_of};
ghost use Rattle.lvs_script.specs.Placing.{items_placed};
ghost use Rattle.lvs_run.specs.SerialBooks.{IsInOrder};

use crate::director::Director;
use lvs_script::serial_items;
use lvs_types::{Item, Listed, NoMemory, Noted, Placed, Round, RoundBook};
use std::alloc::Global;

/// Takes the items in order; each moves into its act.
fn play_items(
    alloc: Global,
    director: &mut Director,
    items: Vec<Placed>,
) -> Result<Vec<Noted>, NoMemory>
    requires in_range { AreInRange (items_placed items.items) }
    requires young { director.old.steps + length items.items ≤ 2 ^ 62 }
    ensures placed { IfOk result (λ acts. map placed_of acts.items ≡ items.items) }
    ensures run { IfOk result (λ acts. IsRun director.old.state acts.items director.new.state) }
    ensures steps { OnOk result (director.new.steps ≡ director.old.steps + length items.items) }
{
    let mut acts = Vec::new(alloc);
    for placed in items {
        let Placed {
            actor,
            number,
            item,
        } = placed;
        acts.reserve(1)?;
        let (item, reply) = director.step(alloc, item)?;
        acts.push_reserved(Noted {
            actor,
            number,
            item,
            reply,
        });
    }
    Ok(acts)
}

/// Plays a round: its moment, then its items in the one order of `serial`, and then its listings.
pub(crate) fn play_round(
    alloc: Global,
    director: &mut Director,
    number: u64,
    round: &Round,
) -> Result<RoundBook, NoMemory>
    requires moment { round.now.moment ≤ 4294967295 }
    requires young { director.old.steps + length (items_of_lines round.now) + 4 ≤ 2 ^ 62 }
    ensures book { IfOk result (λ book. IsInOrder number round.now director.old.state book director.new.state) }
    ensures steps { OnOk result (director.new.steps ≡ director.old.steps + length (items_of_lines round.now) + 4) }
{
    director.step(alloc, Item::Tick(round.moment))?;
    let items = serial_items(alloc, round)?;
    let acts = play_items(alloc, director, items)?;
    Ok(RoundBook {
        number,
        moment: round.moment,
        workers: 1,
        buckets: 1,
        acts: Listed::from_vec(acts),
        shown: director.show(alloc, round)?,
    })
}
