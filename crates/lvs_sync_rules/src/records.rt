//! The records that are sent of entries and templates.
ghost use Rattle.std.specs.Prelude.{◌≡◌};
ghost use Rattle.lvs_model.specs.SyncRules.{of_entry, of_template, state_code};

use lvs_types::{Entry, SyncRecord, TcpState, Template};

/// The flag of an entry that isn't in state Established.
const INACTIVE: u32 = 0x100;

/// The flag of a template.
const TEMPLATE: u32 = 0x1000;

/// The record of an entry.
pub fn of_entry(entry: &Entry) -> SyncRecord
    ensures { result ≡ of_entry entry.now }
{
    let inactive = if entry.state == Some(TcpState::Established) {
        0
    } else {
        INACTIVE
    };
    SyncRecord {
        code: entry.key.proto.code(),
        flags: entry.method.code() + inactive,
        state: state_of(entry.state),
        cport: entry.key.cport,
        vport: entry.key.vport,
        dport: entry.dport,
        mark: entry.mark,
        timeout: entry.timeout,
        caddr: entry.key.caddr,
        vaddr: entry.key.vaddr,
        daddr: entry.daddr,
    }
}

/// The record of a template: that of a mark service tells the mark, which stands in its key as an
/// address.
pub fn of_template(template: &Template) -> SyncRecord
    ensures { result ≡ of_template template.now }
{
    let mark = if template.key.code == 0 {
        template.key.vaddr.number
    } else {
        0
    };
    SyncRecord {
        code: template.key.code,
        flags: template.method.code() + TEMPLATE,
        state: 0,
        cport: 0,
        vport: template.key.vport,
        dport: template.dport,
        mark,
        timeout: template.timeout,
        caddr: template.key.client,
        vaddr: template.key.vaddr,
        daddr: template.daddr,
    }
}

fn state_of(state: Option<TcpState>) -> u16
    ensures { result ≡ state_code state }
{
    match state {
        None => 0,
        Some(state) => state.number(),
    }
}
