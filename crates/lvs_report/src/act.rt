//! The lines of acts.
ghost use Rattle.std.specs.Prelude.{◌≡◌, ◌++◌, drop, OnOk};
ghost use Rattle.lvs_model.specs.Report.{act_line, act_text, acts_text};

use crate::reply::{has_line, put_reply};
use lvs_text::{put, put_number};
use lvs_types::{NoMemory, Noted};

fn put_line(out: &mut Vec<u8>, place: u64, act: &Noted) -> Result<(), NoMemory>
    ensures { OnOk result (out.new.items ≡ out.old.items ++ act_line place act.now) }
{
    put_number(out, place)?;
    put(out, b" ")?;
    put_number(out, u64::from(act.actor))?;
    put(out, b".")?;
    put_number(out, act.number)?;
    put(out, b" ")?;
    put_reply(out, &act.reply)?;
    put(out, b"\n")
}

fn put_act(out: &mut Vec<u8>, place: u64, act: &Noted) -> Result<(), NoMemory>
    ensures { OnOk result (out.new.items ≡ out.old.items ++ act_text place act.now) }
{
    if has_line(&act.reply) {
        put_line(out, place, act)
    } else {
        Ok(())
    }
}

/// Appends the lines of the acts, whose places begin at 0.
pub(crate) fn put_acts(out: &mut Vec<u8>, acts: &[Noted]) -> Result<(), NoMemory>
    ensures { OnOk result (out.new.items ≡ out.old.items ++ acts_text 0 acts.now) }
{
    let mut place = 0u64;
    for act in acts {
        put_act(out, place, act)?;
        place += 1;
    }
    Ok(())
}
