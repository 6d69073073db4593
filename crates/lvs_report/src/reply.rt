//! The text of a reply, and whether it is printed.
ghost use Rattle.std.specs.Prelude.{◌≡◌, ◌++◌, drop, OnOk};
ghost use Rattle.lvs_types.specs.declared.reply.Reply.{Reply};
ghost use Rattle.lvs_model.specs.Report.{drop_text, messages_text, reply_text, is_printed};

use crate::names::{bad_sync_name, learnt_name, malformed_name, method_name, refused_name};
use lvs_text::{put, put_addr, put_hex, put_number};
use lvs_types::{Addr, Bytes, DropCause, Method, NoMemory, Reply};

/// Whether an act with this reply has a line.
pub(crate) fn has_line(reply: &Reply) -> bool
    ensures { result ≡ is_printed reply.now }
{
    match reply {
        Reply::Ticked => false,
        Reply::Swept(count) => *count != 0,
        Reply::Reaped {
            templates,
            renewed,
            servers,
        } => *templates != 0 || *renewed != 0 || *servers != 0,
        Reply::Sent(messages) => !messages.as_slice().is_empty(),
        _ => true,
    }
}

fn put_forward(out: &mut Vec<u8>, method: Method, to: Addr, bytes: &Bytes) -> Result<(), NoMemory>
    ensures { OnOk result (out.new.items ≡ out.old.items ++ reply_text (Reply.Forward method to bytes.now)) }
{
    put(out, b"fwd ")?;
    put(out, method_name(method))?;
    put(out, b" ")?;
    put_addr(out, to)?;
    put(out, b" ")?;
    put_hex(out, bytes.as_slice())
}

fn put_drop(out: &mut Vec<u8>, cause: DropCause) -> Result<(), NoMemory>
    ensures { OnOk result (out.new.items ≡ out.old.items ++ drop_text cause) }
{
    match cause {
        DropCause::Malformed(cause) => {
            put(out, b"malformed ")?;
            put(out, malformed_name(cause))
        }
        DropCause::NoDest => put(out, b"nodest"),
        DropCause::Gone => put(out, b"gone"),
        DropCause::TooLong => put(out, b"toolong"),
    }
}

fn put_reaped(out: &mut Vec<u8>, templates: u64, renewed: u64, servers: u64) -> Result<(), NoMemory>
    ensures { OnOk result (out.new.items ≡ out.old.items ++ reply_text (Reply.Reaped templates renewed servers)) }
{
    put(out, b"reaped ")?;
    put_number(out, templates)?;
    put(out, b" ")?;
    put_number(out, renewed)?;
    put(out, b" ")?;
    put_number(out, servers)
}

fn put_messages(out: &mut Vec<u8>, messages: &[Bytes]) -> Result<(), NoMemory>
    ensures { OnOk result (out.new.items ≡ out.old.items ++ messages_text messages.now) }
{
    for message in messages {
        put(out, b" ")?;
        put_hex(out, message.as_slice())?;
    }
    Ok(())
}

/// Appends the text of a reply.
pub(crate) fn put_reply(out: &mut Vec<u8>, reply: &Reply) -> Result<(), NoMemory>
    ensures { OnOk result (out.new.items ≡ out.old.items ++ reply_text reply.now) }
{
    match reply {
        Reply::Forward { method, to, bytes } => put_forward(out, *method, *to, bytes),
        Reply::Outward(bytes) => {
            put(out, b"out ")?;
            put_hex(out, bytes.as_slice())
        }
        Reply::Pass => put(out, b"pass"),
        Reply::Drop(cause) => {
            put(out, b"drop ")?;
            put_drop(out, *cause)
        }
        Reply::Done => put(out, b"ok"),
        Reply::Refused(cause) => {
            put(out, b"refused ")?;
            put(out, refused_name(*cause))
        }
        Reply::Learnt(answer) => {
            put(out, b"learn ")?;
            put(out, learnt_name(*answer))
        }
        Reply::BadMessage(cause) => {
            put(out, b"badsync ")?;
            put(out, bad_sync_name(*cause))
        }
        Reply::Ticked => put(out, b"ticked"),
        Reply::Swept(count) => {
            put(out, b"swept ")?;
            put_number(out, *count)
        }
        Reply::Reaped {
            templates,
            renewed,
            servers,
        } => put_reaped(out, *templates, *renewed, *servers),
        Reply::Sent(messages) => {
            put(out, b"sent")?;
            put_messages(out, messages.as_slice())
        }
    }
}
