//! Plays scripts by chance on the plain director and on the core, and tells the first difference: 300
//! scripts, or as many as the first word says.
#![tactic(auto)]

mod chance;
mod comparison;
mod directors;
mod edits;
mod messages;
mod network;
mod order;
mod packets;
mod script;
mod tally;

ghost use Rattle.std.specs.Prelude.{◌≡◌, MatchResult, Ok, ⊤};

use crate::comparison::{Outcome, compare, text_of};
use crate::tally::Tally;
use lvs_types::NoMemory;
use std::io::Write;
use std::process::ExitCode;
use std::{env, io};

/// How many scripts are played where no number is given.
const FEW: u64 = 300;

/// How many scripts the program's first word asks for, if it is a number.
fn wanted(rt: &HostRuntime) -> io::Result<Option<u64>> {
    let Some(word) = env::args(rt)?.nth(1) else {
        return Ok(None);
    };
    Ok(word.parse().ok())
}

/// Want of memory as an error of the program.
fn remembered<T: Drop>(made: Result<T, NoMemory>) -> io::Result<T>
    ensures { MatchResult result (λ t. made ≡ Ok t) (λ _. ⊤) }
{
    match made {
        Ok(made) => Ok(made),
        Err(_) => Err(io::ErrorKind::OutOfMemory.into()),
    }
}

/// Tells what a script showed, with its text, unless all was the same; whether it was.
fn tell(rt: &HostRuntime, number: u64, outcome: &Outcome) -> io::Result<bool> {
    if let Outcome::Same = outcome {
        return Ok(true);
    }
    let text = remembered(text_of(rt.alloc(), number))?;
    io::writer(rt).write_all(&text)?;
    println!(rt; "script {number}: {outcome:?}")?;
    Ok(false)
}

/// Plays so many scripts, up to the first that shows a difference; whether none did.
fn play(rt: &HostRuntime, count: u64, tally: &mut Tally) -> io::Result<bool> {
    for number in 0..count {
        let outcome = remembered(compare(rt.alloc(), number, tally))?;
        if !tell(rt, number, &outcome)? {
            return Ok(false);
        }
    }
    println!(rt; "{count} scripts: no difference")?;
    Ok(true)
}

fn main(rt: HostRuntime) -> io::Result<ExitCode> {
    let wanted = wanted(&rt)?;
    let mut tally = Tally::default();
    let same = play(&rt, wanted.unwrap_or(FEW), &mut tally)?;
    if wanted.is_some() {
        println!(rt; "{tally:?}")?;
    }
    Ok(if same {
        ExitCode::SUCCESS
    } else {
        ExitCode::FAILURE
    })
}
