//! The program that prints a captured script: the standard streams and the exit status round the top call.
#![tactic(auto)]

use lvs_outside::{ReadSource, WriteSink};
use lvs_run::{exit_code, fault_line};
use lvs_tidy_run::serve_script;
use lvs_types::Status;
use std::process::ExitCode;
use std::{env, io};

/// The program's words without its name.
fn words(rt: &HostRuntime) -> io::Result<Vec<String>> {
    let mut words = Vec::new(rt.alloc());
    for word in env::args(rt)?.skip(1) {
        words.push(word)?;
    }
    Ok(words)
}

/// Tells on standard error what went wrong, if anything did, and gives the exit status.
fn end(rt: &HostRuntime, status: &Status) -> ExitCode {
    let _ = match fault_line(rt.alloc(), status) {
        Ok(line) if line.is_empty() => Ok(()),
        Ok(line) => eprintln!(rt; "{line}"),
        Err(_) => eprintln!(rt; "ipvsd: no memory"),
    };
    ExitCode::from(exit_code(status))
}

/// Ends a run whose words aren't text, or for whose words there was no memory.
fn end_without_words(rt: &HostRuntime, error: &io::Error) -> ExitCode {
    if error.kind() == io::ErrorKind::OutOfMemory {
        return end(rt, &Status::NoMemory);
    }
    // Which word isn't text the system doesn't say, so the line has no number.
    let _ = eprintln!(rt; "ipvsd: words refused");
    ExitCode::from(exit_code(&Status::WordsRefused { at: 0 }))
}

fn main(rt: HostRuntime) -> ExitCode {
    let words = match words(&rt) {
        Ok(words) => words,
        Err(error) => return end_without_words(&rt, &error),
    };
    let mut source = ReadSource::new(rt.reader());
    let mut sink = WriteSink::new(io::writer(&rt));
    let status = serve_script(rt.alloc(), &words, &mut source, &mut sink);
    end(&rt, &status)
}
