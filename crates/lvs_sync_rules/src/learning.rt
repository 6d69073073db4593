//! What becomes of a record that arrives.
ghost use Rattle.std.specs.Prelude.{◌≡◌};
ghost use Rattle.lvs_model.specs.SyncRules.{accept, accept_item, accept_record, has_known_protocol, has_known_state, has_known_method, is_template_record};

use lvs_types::{Learnt, Method, Proto, SyncItem, SyncRecord, TcpState};

/// The flag of a template's record.
const TEMPLATE: u32 = 0x1000;

/// Whether a record of a message with a sync id is learnt by a backup daemon (`None`: none runs),
/// and for which cause not; where several fit, it is the first in the order of [`Learnt`]'s
/// refusals.
///
/// A backup with sync id 0 takes the messages of every id.
pub fn accept(backup: Option<u8>, sync_id: u8, item: &SyncItem) -> Learnt
    ensures { result ≡ accept backup sync_id item.now }
{
    match backup {
        None => Learnt::Off,
        Some(own) if own == 0 || own == sync_id => accept_known(item),
        Some(_) => Learnt::OtherId,
    }
}

fn accept_known(item: &SyncItem) -> Learnt
    ensures { result ≡ accept_item item.now }
{
    match item {
        SyncItem::V6 => Learnt::V6,
        SyncItem::V4(arrived) => judge(arrived),
    }
}

fn judge(arrived: &SyncRecord) -> Learnt
    ensures { result ≡ accept_record arrived.now }
{
    if !is_protocol(arrived) {
        Learnt::BadProto
    } else if !is_state(arrived) {
        Learnt::BadState
    } else if !is_method(arrived) {
        Learnt::BadMethod
    } else {
        Learnt::Accepted
    }
}

fn is_template(arrived: &SyncRecord) -> bool
    ensures { result ≡ is_template_record arrived.now }
{
    arrived.flags & TEMPLATE != 0
}

/// Protocol 0 is that of a template of a mark service.
fn is_protocol(arrived: &SyncRecord) -> bool
    ensures { result ≡ has_known_protocol arrived.now }
{
    Proto::of_code(arrived.code).is_some() || is_template(arrived) && arrived.code == 0
}

/// Only the record of a TCP connection has a state.
fn is_state(arrived: &SyncRecord) -> bool
    ensures { result ≡ has_known_state arrived.now }
{
    is_template(arrived) || arrived.code != 6 || TcpState::of_number(arrived.state).is_some()
}

fn is_method(arrived: &SyncRecord) -> bool
    ensures { result ≡ has_known_method arrived.now }
{
    Method::of_code(arrived.flags % 8).is_some()
}
