//! The program: the standard streams and the exit status round the top call.
#![tactic(auto)]

use lvs_outside::OpenGate;
use lvs_run::{exit_code, fault_line, serve_streams};
use lvs_types::Status;
use std::process::ExitCode;
use std::{env, io};

/// The program's words without its name.
fn words(rt: &HostRuntime) -> io::Result<Vec<String>> {
    let mut words = Vec::new(rt.alloc());
    for word in env::args(rt)?.skip(1) {
        words.push(word)?;
    }
    Ok(words)
}

/// Tells on standard error what went wrong, if anything did. Where there is no memory for the line,
/// that is what is told; where standard error fails there is nowhere to tell it.
fn tell(rt: &HostRuntime, status: &Status) {
    let _ = match fault_line(rt.alloc(), status) {
        Ok(line) if line.is_empty() => Ok(()),
        Ok(line) => eprintln!(rt; "{line}"),
        Err(_) => eprintln!(rt; "ipvsd: no memory"),
    };
}

/// Tells how the run ended, and gives its exit status.
fn end(rt: &HostRuntime, status: &Status) -> ExitCode {
    tell(rt, status);
    ExitCode::from(exit_code(status))
}

/// Ends a run whose words aren't text, or for whose words there was no memory.
fn end_without_words(rt: &HostRuntime, error: &io::Error) -> ExitCode {
    if error.kind() == io::ErrorKind::OutOfMemory {
        return end(rt, &Status::NoMemory);
    }
    // Which word isn't text the system doesn't say, so the line has no number.
    let _ = eprintln!(rt; "ipvsd: words refused");
    ExitCode::from(exit_code(&Status::WordsRefused { at: 0 }))
}

fn main(rt: HostRuntime) -> ExitCode {
    let words = match words(&rt) {
        Ok(words) => words,
        Err(error) => return end_without_words(&rt, &error),
    };
    let served = serve_streams(
        &rt,
        rt.alloc(),
        &words,
        rt.reader(),
        io::writer(&rt),
        &OpenGate,
    );
    end(&rt, &served.done.status)
}
