//! Whose list an item goes to, where there are several workers.
ghost use Rattle.std.specs.Prelude.{◌≡◌, ℕ, ◌<◌};
ghost use Rattle.lvs_model.specs.Reading.{read};
ghost use Rattle.lvs_model.specs.Plans.{worker_at, worker_in, worker_out};
ghost use Rattle.lvs_script.specs.Planning.{actor_among};

use lvs_headers::read_packet;
use lvs_model::worker_of;
use lvs_types::Item;

/// Who an item is for.
#[derive(Clone, Copy, Debug, PartialEq, Eq)]
pub(crate) enum Actor {
    Clock,
    Control,
    Sync,
    /// The number of the worker, from 0.
    Worker(u32),
}

/// The worker of an incoming packet, whose source is the client: worker 0 where the packet isn't
/// unfragmented TCP or UDP.
fn worker_of_incoming(bytes: &[u8], workers: u32) -> u32
    requires { 0 < workers }
    ensures value { result ≡ worker_at (worker_in workers) (read bytes.now) }
    ensures below { result < workers }
{
    let Ok(packet) = read_packet(bytes) else {
        return 0;
    };
    let head = packet.head();
    match head.transport() {
        None => 0,
        Some(proto) => worker_of(proto.code(), head.src, head.sport, workers),
    }
}

/// The worker of an outgoing packet, whose destination is the client.
fn worker_of_outgoing(bytes: &[u8], workers: u32) -> u32
    requires { 0 < workers }
    ensures value { result ≡ worker_at (worker_out workers) (read bytes.now) }
    ensures below { result < workers }
{
    let Ok(packet) = read_packet(bytes) else {
        return 0;
    };
    let head = packet.head();
    match head.transport() {
        None => 0,
        Some(proto) => worker_of(proto.code(), head.dst, head.dport, workers),
    }
}

/// Whose list an item goes to: a packet to the worker of its client.
pub(crate) fn actor_of(item: &Item, workers: u32) -> Actor
    requires { 0 < workers }
    ensures value { result ≡ actor_among workers item.now }
    ensures below { (worker : ℕ) → result ≡ Actor.Worker worker → worker < workers }
{
    match item {
        Item::Incoming { bytes, .. } => {
            Actor::Worker(worker_of_incoming(bytes.as_slice(), workers))
        }
        Item::Outgoing { bytes } => Actor::Worker(worker_of_outgoing(bytes.as_slice(), workers)),
        Item::Edit(_) | Item::Set(_) => Actor::Control,
        Item::Learn { .. } | Item::BadSync(_) => Actor::Sync,
        Item::Tick(_) | Item::Sweep(_) | Item::Reap | Item::SendSync => Actor::Clock,
    }
}
