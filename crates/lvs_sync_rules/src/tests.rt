//! The rules on a connection and a template as a Linux 6.1 director told of them, and on records
//! that are refused.
use crate::{accept, due_for_sync, of_entry, of_template};
use lvs_types::{
    Addr, Entry, Key, Learnt, Method, Proto, Settings, SyncItem, SyncRecord, TcpState, Template,
    TemplateId, TemplateKey,
};

/// 172.16.0.9:40000 to 10.0.0.1:80 on 192.168.0.1:8080.
const ENTRY: Entry = Entry {
    id: 1,
    key: Key {
        proto: Proto::Tcp,
        caddr: Addr {
            number: 0xac10_0009,
        },
        cport: 40000,
        vaddr: Addr {
            number: 0x0a00_0001,
        },
        vport: 80,
    },
    server: None,
    method: Method::Masq,
    daddr: Addr {
        number: 0xc0a8_0001,
    },
    dport: 8080,
    state: Some(TcpState::Established),
    timeout: 900,
    deadline: 900,
    packets: 2,
    template: None,
    mark: 0,
};

const RECORD: SyncRecord = SyncRecord {
    code: 6,
    flags: 0,
    state: 1,
    cport: 40000,
    vport: 80,
    dport: 8080,
    mark: 0,
    timeout: 900,
    caddr: Addr {
        number: 0xac10_0009,
    },
    vaddr: Addr {
        number: 0x0a00_0001,
    },
    daddr: Addr {
        number: 0xc0a8_0001,
    },
};

/// The template of a mark service with mark 7, by direct routing.
const TEMPLATE: Template = Template {
    id: TemplateId(1),
    key: TemplateKey {
        code: 0,
        client: Addr {
            number: 0xac10_0000,
        },
        vaddr: Addr { number: 7 },
        vport: 0,
    },
    server: None,
    method: Method::Direct,
    daddr: Addr {
        number: 0xc0a8_0002,
    },
    dport: 0,
    timeout: 300,
    deadline: 300,
};

#[test]
fn records_that_are_sent(rt: HostRuntime) {
    assert_eq!(rt; of_entry(&ENTRY), RECORD);
    let closing = Entry {
        method: Method::Tunnel,
        state: Some(TcpState::TimeWait),
        ..ENTRY
    };
    assert_eq!(rt;
        of_entry(&closing),
        SyncRecord {
            flags: 0x102,
            state: 5,
            ..RECORD
        }
    );
    let told = SyncRecord {
        code: 0,
        flags: 0x1003,
        state: 0,
        cport: 0,
        vport: 0,
        dport: 0,
        mark: 7,
        timeout: 300,
        caddr: Addr {
            number: 0xac10_0000,
        },
        vaddr: Addr { number: 7 },
        daddr: Addr {
            number: 0xc0a8_0002,
        },
    };
    assert_eq!(rt; of_template(&TEMPLATE), told);
}

#[test]
fn connections_that_are_due(rt: HostRuntime) {
    let settings = Settings::initial();
    let once = Settings {
        period: 0,
        ..settings
    };
    let established = Some(TcpState::Established);
    for (settings, old, packets, want) in [
        (settings, Some(TcpState::SynRecv), 2, true),
        (settings, established, 2, false),
        (settings, established, 3, true),
        (settings, established, 50, false),
        (settings, established, 53, true),
        (once, established, 3, true),
        (once, established, 53, false),
    ] {
        let entry = Entry { packets, ..ENTRY };
        assert_eq!(rt;
            due_for_sync(&settings, old, &entry),
            want,
            "at {packets} packets"
        );
    }
    let opening = Entry {
        state: Some(TcpState::SynRecv),
        packets: 1,
        ..ENTRY
    };
    assert_eq!(rt;
        due_for_sync(&settings, Some(TcpState::None0), &opening),
        false
    );
}

#[test]
fn records_that_arrive(rt: HostRuntime) {
    let template = SyncRecord {
        flags: 0x1000,
        code: 0,
        state: 99,
        ..RECORD
    };
    for (backup, sync_id, item, want) in [
        (Some(7), 7, SyncItem::V4(RECORD), Learnt::Accepted),
        (Some(0), 8, SyncItem::V4(RECORD), Learnt::Accepted),
        (Some(7), 7, SyncItem::V4(template), Learnt::Accepted),
        (None, 7, SyncItem::V6, Learnt::Off),
        (Some(7), 8, SyncItem::V6, Learnt::OtherId),
        (Some(7), 7, SyncItem::V6, Learnt::V6),
        (
            Some(7),
            7,
            SyncItem::V4(SyncRecord { code: 0, ..RECORD }),
            Learnt::BadProto,
        ),
        (
            Some(7),
            7,
            SyncItem::V4(SyncRecord {
                code: 132,
                flags: 1,
                ..RECORD
            }),
            Learnt::BadProto,
        ),
        (
            Some(7),
            7,
            SyncItem::V4(SyncRecord {
                state: 11,
                flags: 1,
                ..RECORD
            }),
            Learnt::BadState,
        ),
        (
            Some(7),
            7,
            SyncItem::V4(SyncRecord {
                code: 17,
                state: 11,
                ..RECORD
            }),
            Learnt::Accepted,
        ),
        (
            Some(7),
            7,
            SyncItem::V4(SyncRecord {
                flags: 0x81,
                ..RECORD
            }),
            Learnt::BadMethod,
        ),
    ] {
        assert_eq!(rt;
            accept(backup, sync_id, &item),
            want,
            "{item:?} with {sync_id}"
        );
    }
}
