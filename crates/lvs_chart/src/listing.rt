//! The lines of a `list` text.
use lvs_lines::words_of;
use lvs_types::NoMemory;
use std::alloc::Global;
use std::str;

/// A line of a `list` text.
#[derive(Clone, Copy)]
pub(crate) enum ListLine<'a> {
    /// `PROTOCOL ADDR:PORT ..` or `FWM MARK ..`.
    Service {
        protocol: &'a str,
        place: &'a str,
    },
    /// `-> ADDR:PORT METHOD WEIGHT ACTIVE INACTIVE`.
    Server {
        place: &'a str,
        active: u64,
        inactive: u64,
    },
    /// Any other line, of which the picture shows nothing.
    Other,
}

/// A word of text; empty where it is none.
fn text_of(word: &[u8]) -> &str {
    str::from_utf8(word).unwrap_or("")
}

/// What a line of a `list` text says.
pub(crate) fn list_line(alloc: Global, line: &[u8]) -> Result<ListLine<'_>, NoMemory> {
    let words = words_of(alloc, line)?;
    Ok(match words.as_slice() {
        [b"->", place, _, _, active, inactive] => ListLine::Server {
            place: text_of(place),
            active: text_of(active).parse().unwrap_or(0),
            inactive: text_of(inactive).parse().unwrap_or(0),
        },
        [b"->", ..] => ListLine::Other,
        [protocol, place, ..] => ListLine::Service {
            protocol: text_of(protocol),
            place: text_of(place),
        },
        _ => ListLine::Other,
    })
}
