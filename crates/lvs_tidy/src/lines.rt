//! A line of a round.
ghost use Rattle.std.specs.Prelude.{◌≡◌, ◌++◌, ◌∷◌, [], codes, OnOk};
ghost use Rattle.hex.specs.Hex.{encode_lower};
ghost use Rattle.lvs_model.specs.Scripts.{line_name};
ghost use Rattle.lvs_tidy.specs.ScriptTexts.{shown_kind, shown_words, spaced, line_text};

use crate::commands::{put_command, put_setting};
use crate::words::{put_hex_word, put_number_word};
use lvs_text::put;
use lvs_types::{Bytes, NoMemory, ScriptLine, Shown};

/// Appends a first word and bytes.
fn put_packet(out: &mut Vec<u8>, first: &[u8], bytes: &Bytes) -> Result<(), NoMemory>
    ensures { OnOk result (out.new.items ≡ out.old.items ++ first.now ++ spaced (encode_lower bytes.now ∷ [])) }
{
    put(out, first)?;
    put_hex_word(out, bytes.as_slice())
}

/// Appends the line of a listing, or of an ICMP error.
fn put_shown(out: &mut Vec<u8>, shown: &Shown) -> Result<(), NoMemory>
    ensures { OnOk result (out.new.items ≡ out.old.items ++ (line_name (shown_kind shown.now) ++ spaced (shown_words shown.now))) }
{
    match shown {
        Shown::List => put(out, b"list"),
        Shown::Conns => put(out, b"conns"),
        Shown::Save => put(out, b"save"),
        Shown::IcmpIn(bytes) => put_packet(out, b"icmp in", bytes),
        Shown::IcmpOut(bytes) => put_packet(out, b"icmp out", bytes),
    }
}

/// Appends a line, without a line feed.
pub(crate) fn put_line(out: &mut Vec<u8>, line: &ScriptLine) -> Result<(), NoMemory>
    ensures { OnOk result (out.new.items ≡ out.old.items ++ line_text line.now) }
{
    match line {
        ScriptLine::Incoming { mark, bytes } => {
            put(out, b"in")?;
            put_number_word(out, u64::from(*mark))?;
            put_hex_word(out, bytes.as_slice())
        }
        ScriptLine::Outgoing(bytes) => put_packet(out, b"out", bytes),
        ScriptLine::Edit(command) => {
            put(out, b"ipvs")?;
            put_command(out, command)
        }
        ScriptLine::Set(setting) => {
            put(out, b"sysctl")?;
            put_setting(out, setting)
        }
        ScriptLine::Sync(bytes) => put_packet(out, b"sync", bytes),
        ScriptLine::Show(shown) => put_shown(out, shown),
    }
}
