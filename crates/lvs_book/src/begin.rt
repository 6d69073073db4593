//! How a book begins: its value goes into the slot, and each lane gets its pass.
ghost use Rattle.std.specs.Prelude.{◌≡◌, ◌<◌, ◌≤◌, ◌∷◌, [], length, IfOk, IfErr, vec_len, vec_capacity};
ghost use Rattle.lvs_book.specs.Lanes.{new_lanes};
ghost use Rattle.lvs_book.specs.Steps.{at_rest};
ghost use Rattle.lvs_book.specs.Passes.{opened};

use crate::journal::Journal;
use crate::pass::Pass;
use crate::plays::Part;
use crate::turnstile::{BookSeat, Terms, Turnstile};
use atomic_table::Table;
use lvs_types::NoMemory;
use std::alloc::Global;
use std::mem;
use std::snapshot::Snapshot;

impl<T: Journal> Turnstile<T> {
    // Cuts the first seat into a pass for each lane, in order.
    fn deal(&self, mut seat: BookSeat<T>, count: u32, passes: &mut Vec<Pass<T>>)
        requires book { seat.table_id ≡ self.now.table.shared.table_id }
        requires lanes { (0 < count) × (seat.me ≡ (at_rest (new_lanes (T.origin self.now.table.shared.key.opened.value) 0 count), [])) }
        requires room { (passes.old.items ≡ []) × (vec_len passes.old ≡ 0) × (count ≤ vec_capacity passes.old) }
        ensures { passes.new.items ≡ opened seat.table_id (T.origin self.now.table.shared.key.opened.value) 0 count }
    {
        for _dealt in 0..count - 1 {
            let rest = self.table.shared.split_seat::<Part>(&mut seat);
            let first = mem::replace(&mut seat, rest);
            passes.push_reserved(Pass {
                badge: first.into_badge(),
            });
        }
        passes.push_reserved(Pass {
            badge: seat.into_badge(),
        });
    }

    /// The passes stand in the order of their lanes, from 0, and have no acts. All memory is taken before
    /// the first of them is made.
    pub(crate) fn begin(
        alloc: Global,
        value: T,
        passes: u32,
    ) -> Result<(Turnstile<T>, Vec<Pass<T>>), (T, NoMemory)>
        requires some { 0 < passes }
        requires empty { T.acts value ≡ [] }
        ensures ok { IfOk result (λ r. (r.1.items ≡ opened r.0.table.shared.table_id (T.origin value) 0 passes) × (r.0.table.shared.key.lanes ≡ passes) × (r.0.table.shared.key.opened.value ≡ value)) }
        ensures err { IfErr result (λ r. r.0 ≡ value) }
    {
        let Ok(mut given) = Vec::with_capacity(alloc, passes as usize) else {
            return Err((value, NoMemory));
        };
        let Ok(mut slots) = Vec::with_capacity(alloc, 1) else {
            return Err((value, NoMemory));
        };
        let terms = Terms {
            opened: Snapshot::of(&value),
            lanes: passes,
        };
        slots.push_reserved(value);
        match Table::new(alloc, &[0, 0, 0], slots, &terms) {
            Ok((table, seat)) => {
                let turnstile = Turnstile { table };
                turnstile.deal(seat, passes, &mut given);
                Ok((turnstile, given))
            }
            Err(refused) => {
                let mut slots = refused.slots;
                match slots.pop() {
                    Some(value) => {
                        slots.destroy_empty();
                        Err((value, NoMemory))
                    }
                    None => unreachable!(),
                }
            }
        }
    }
}
