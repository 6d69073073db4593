//! An outgoing packet: the answer of a masqueraded connection.
ghost use Rattle.std.specs.Prelude.{◌≡◌, ◌<◌, ◌≤◌, ◌^◌, [], vec_capacity, true, Ok, IfOk, OnErr, IfSome, length};
ghost use Rattle.lvs_model.specs.Reading.{read};
ghost use Rattle.lvs_model.specs.Rewriting.{masq_out_bytes, has_ports};
ghost use Rattle.lvs_model.specs.Buckets.{head_read, outgoing_in};
ghost use Rattle.lvs_model.specs.Binding.{put_entry};
ghost use Rattle.lvs_model.specs.Forwarding.{in_state, state_after};
ghost use Rattle.lvs_model.specs.Outgoing.{answer_out, outgoing};

use crate::forwarding::{fill, put_in_state, state_then};
use crate::tables::{Tables, Whole};
use lvs_headers::read_packet;
use lvs_rewrite::masq_out;
use lvs_types::{Bytes, Direction, DropCause, Entry, Head, NoMemory, Reply};
use std::alloc::Global;

fn masquerade_back(head: &Head, bytes: &[u8], e: &Entry, mut room: Vec<u8>) -> Bytes
    requires read { read bytes.now ≡ Ok head.now }
    requires whole { head.now.total ≡ length bytes.now }
    requires ports { has_ports head.now ≡ true }
    requires empty { room.items ≡ [] }
    requires space { length bytes.now ≤ vec_capacity room }
    ensures { result ≡ masq_out_bytes head.now bytes.now e.now.key.vaddr e.now.key.vport }
{
    fill(&mut room, bytes);
    masq_out(&mut room, head, e.key.vaddr, e.key.vport);
    Bytes::from_vec(room)
}

/// The entry follows an answer of its server.
fn renew<W: Whole, T: Tables<W>>(tables: &mut T, head: &Head, e: &Entry)
    requires sound { T.is_sound tables.old }
    requires holds { T.holds tables.old e.now }
    requires now { (T.state tables.old).now < 2 ^ 32 }
    ensures next { T.state tables.new ≡ record (T.state tables.old) { entries = put_entry (in_state (T.state tables.old).settings (T.state tables.old).now (state_after e.now.state Direction.Output head.now) e.now) (T.state tables.old).entries } }
    ensures sound { T.is_sound tables.new }
{
    let state = state_then(e.state, Direction::Output, head);
    let after = put_in_state(tables.settings(), tables.moment(), state, e);
    tables.put_entry(e, &after);
}

fn answer_out<W: Whole, T: Tables<W>>(
    alloc: Global,
    tables: &mut T,
    head: &Head,
    bytes: &[u8],
    e: Option<Entry>,
) -> Result<Reply, NoMemory>
    requires sound { T.is_sound tables.old }
    requires holds { IfSome e (T.holds tables.old) }
    requires now { (T.state tables.old).now < 2 ^ 32 }
    requires read { read bytes.now ≡ Ok head.now }
    requires whole { head.now.total ≡ length bytes.now }
    requires ports { has_ports head.now ≡ true }
    ensures ok { IfOk result (λ r. (r, T.state tables.new) ≡ answer_out (T.state tables.old) head.now bytes.now e) }
    ensures err { OnErr result (T.state tables.new ≡ T.state tables.old) }
    ensures sound { T.is_sound tables.new }
{
    let Some(e) = e else {
        return Ok(Reply::Pass);
    };
    let room = Vec::with_capacity(alloc, bytes.len())?;
    let bytes = masquerade_back(head, bytes, &e, room);
    renew(tables, head, &e);
    Ok(Reply::Outward(bytes))
}

/// An outgoing packet, from its bytes and the entry of its reply tuple to its reply.
pub(crate) fn handle_outgoing<W: Whole, T: Tables<W>>(
    alloc: Global,
    tables: &mut T,
    bytes: &[u8],
    found: Option<Entry>,
) -> Result<Reply, NoMemory>
    requires sound { T.is_sound tables.old }
    requires holds { IfSome found (T.holds tables.old) }
    requires found { found ≡ outgoing_in (T.state tables.old).entries (head_read (read bytes.now)) }
    requires now { (T.state tables.old).now < 2 ^ 32 }
    ensures ok { IfOk result (λ r. (r, T.state tables.new) ≡ outgoing (T.state tables.old) bytes.now) }
    ensures err { OnErr result (T.state tables.new ≡ T.state tables.old) }
    ensures sound { T.is_sound tables.new }
{
    let packet = match read_packet(bytes) {
        Err(cause) => return Ok(Reply::Drop(DropCause::Malformed(cause))),
        Ok(packet) => packet,
    };
    let head = packet.head();
    let Some(_) = head.transport() else {
        return Ok(Reply::Pass);
    };
    answer_out(alloc, tables, &head, packet.whole(), found)
}
