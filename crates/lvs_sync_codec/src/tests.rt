//! Messages of a Linux director, and the causes of bytes that are none.
use crate::real_messages::{
    DIRECT_AND_TUNNEL, TEMPLATES, TEMPLATES_OF_ANY_PORT, UDP, VERSION_0, VERSION_0_FIRST,
    VERSION_0_TEMPLATES, VERSION_1,
};
use crate::{MessageRefused, read_message, write_message, written_is_read_again};
use lvs_types::{Addr, BadSync, SyncItem, SyncRecord};
use std::alloc::Global;
use std::test::Fail;

/// 172.16.0.9:40000 to 10.0.0.1:80 on 192.168.0.1:8080.
const CONNECTION: SyncRecord = SyncRecord {
    code: 6,
    flags: 0,
    state: 1,
    cport: 40000,
    vport: 80,
    dport: 8080,
    mark: 0,
    timeout: 900,
    caddr: Addr {
        number: 0xac10_0009,
    },
    vaddr: Addr {
        number: 0x0a00_0001,
    },
    daddr: Addr {
        number: 0xc0a8_0001,
    },
};

const DIRECT: SyncRecord = SyncRecord {
    flags: 0x83,
    cport: 40025,
    vport: 81,
    dport: 81,
    daddr: Addr {
        number: 0xc0a8_0002,
    },
    ..CONNECTION
};

const TEMPLATE: SyncRecord = SyncRecord {
    flags: 0x1183,
    state: 0,
    cport: 0,
    vport: 443,
    dport: 443,
    timeout: 300,
    caddr: Addr {
        number: 0xac10_1400,
    },
    daddr: Addr {
        number: 0xc0a8_0004,
    },
    ..CONNECTION
};

const TEMPLATE_OF_ANY_PORT: SyncRecord = SyncRecord {
    flags: 0x1100,
    state: 0,
    cport: 0,
    vport: 0,
    dport: 0,
    timeout: 300,
    vaddr: Addr {
        number: 0x0a00_0002,
    },
    ..CONNECTION
};

const DATAGRAMS: SyncRecord = SyncRecord {
    code: 17,
    flags: 0x100,
    state: 0,
    cport: 40043,
    vport: 53,
    dport: 53,
    timeout: 300,
    ..CONNECTION
};

const OLD: SyncRecord = SyncRecord {
    timeout: 0,
    ..CONNECTION
};

#[test]
fn messages_of_a_linux_director(rt: HostRuntime) -> Result<(), Fail> {
    let alloc = rt.alloc();
    let table = [
        (VERSION_1, 1, CONNECTION),
        (DIRECT_AND_TUNNEL, 9, DIRECT),
        (TEMPLATES, 17, TEMPLATE),
        (TEMPLATES_OF_ANY_PORT, 8, TEMPLATE_OF_ANY_PORT),
        (UDP, 1, DATAGRAMS),
        (VERSION_0, 1, OLD),
        (
            VERSION_0_FIRST,
            1,
            SyncRecord {
                cport: 41000,
                ..OLD
            },
        ),
        (
            VERSION_0_TEMPLATES,
            7,
            SyncRecord {
                cport: 41001,
                ..OLD
            },
        ),
    ];
    for (bytes, count, first) in table {
        let message = read_message(alloc, bytes)?;
        assert_eq!(rt; message.sync_id, 7, "{first:?}");
        assert_eq!(rt; message.items.as_slice().len(), count, "{first:?}");
        assert_eq!(rt;
            message.items.as_slice().first(),
            Some(&SyncItem::V4(first))
        );
    }
    Ok(())
}

#[test]
fn messages_of_a_linux_director_are_written_again(rt: HostRuntime) -> Result<(), Fail> {
    let alloc = rt.alloc();
    for bytes in [
        VERSION_1,
        DIRECT_AND_TUNNEL,
        TEMPLATES,
        TEMPLATES_OF_ANY_PORT,
        UDP,
    ] {
        let mut records = Vec::new(alloc);
        for item in read_message(alloc, bytes)?.items.as_slice() {
            if let SyncItem::V4(record) = item {
                records.push(*record)?;
            }
        }
        assert!(rt; !records.is_empty() && records.len() <= 40);
        let written = write_message(alloc, 1, 7, &records)?;
        assert_eq!(rt; written.as_slice(), bytes);
    }
    assert_eq!(rt;
        write_message(alloc, 0, 7, &[CONNECTION])?.as_slice(),
        VERSION_0
    );
    written_is_read_again();
    Ok(())
}

#[test]
fn long_messages(rt: HostRuntime) -> Result<(), Fail> {
    let alloc = rt.alloc();
    assert_eq!(rt;
        write_message(alloc, 1, 7, &[DIRECT; 40])?.as_slice().len(),
        1448
    );
    assert_eq!(rt; write_message(alloc, 1, 7, &[DIRECT])?.as_slice().len(), 44);
    Ok(())
}

fn cause_of(alloc: Global, bytes: &[u8]) -> Result<Option<BadSync>, Fail> {
    match read_message(alloc, bytes) {
        Ok(_) => Ok(None),
        Err(MessageRefused::Bad(cause)) => Ok(Some(cause)),
        Err(refused) => Err(Fail::from(refused)),
    }
}

/// These bytes and more, with their number as the size field.
fn sized(alloc: Global, bytes: &[u8], more: &[u8]) -> Result<Vec<u8>, Fail> {
    let mut all = bytes.to_vec(alloc)?;
    all.extend_from_slice(more)?;
    let size = u8::try_from(all.len())?;
    if let Some(place) = all.get_mut(3) {
        *place = size;
    }
    Ok(all)
}

fn changed(alloc: Global, bytes: &[u8], at: usize, value: u8) -> Result<Vec<u8>, Fail> {
    let mut all = bytes.to_vec(alloc)?;
    if let Some(place) = all.get_mut(at) {
        *place = value;
    }
    Ok(all)
}

#[test]
fn cut_messages(rt: HostRuntime) -> Result<(), Fail> {
    let alloc = rt.alloc();
    for kept in 0..44 {
        let bytes = VERSION_1.get(..kept).unwrap_or(&[]);
        let (as_it_is, resized) = match kept {
            0..8 => (BadSync::Short, BadSync::Short),
            8 => (BadSync::Size, BadSync::Count),
            _ => (BadSync::Size, BadSync::RecordShort),
        };
        assert_eq!(rt; cause_of(alloc, bytes)?, Some(as_it_is), "{kept} bytes");
        assert_eq!(rt;
            cause_of(alloc, &sized(alloc, bytes, &[])?)?,
            Some(resized),
            "{kept}"
        );
    }
    for kept in 0..28 {
        let bytes = VERSION_0.get(..kept).unwrap_or(&[]);
        let (as_it_is, resized) = match kept {
            0..4 => (BadSync::Short, BadSync::Short),
            4 => (BadSync::Size, BadSync::Count),
            _ => (BadSync::Size, BadSync::RecordShort),
        };
        assert_eq!(rt; cause_of(alloc, bytes)?, Some(as_it_is), "{kept} bytes");
        assert_eq!(rt;
            cause_of(alloc, &sized(alloc, bytes, &[])?)?,
            Some(resized),
            "{kept}"
        );
    }
    Ok(())
}

#[test]
fn a_changed_byte(rt: HostRuntime) -> Result<(), Fail> {
    let alloc = rt.alloc();
    let table = [
        (1, 9, None),
        (3, 0x2b, Some(BadSync::Size)),
        (4, 0, Some(BadSync::Count)),
        (4, 2, Some(BadSync::Count)),
        (5, 2, Some(BadSync::Version)),
        (6, 1, Some(BadSync::Version)),
        (7, 1, Some(BadSync::Version)),
        (8, 1, None),
        (8, 2, None),
        (10, 0x10, Some(BadSync::RecordVersion)),
        (10, 0x1f, Some(BadSync::RecordVersion)),
        (11, 0x23, Some(BadSync::RecordShort)),
        (11, 0x25, Some(BadSync::RecordShort)),
        (11, 3, Some(BadSync::RecordShort)),
    ];
    for (at, value, want) in table {
        let bytes = changed(alloc, VERSION_1, at, value)?;
        assert_eq!(rt; cause_of(alloc, &bytes)?, want, "byte {at} is {value}");
    }
    Ok(())
}

#[test]
fn options_and_padding(rt: HostRuntime) -> Result<(), Fail> {
    let alloc = rt.alloc();
    let table: [(u8, u8, &[u8], Option<BadSync>); 19] = [
        (1, 39, &[1, 1, 9], None),
        (1, 39, &[1, 1, 9, 0], None),
        (1, 39, &[1, 1, 9, 0, 0], Some(BadSync::Count)),
        (1, 41, &[1, 3, 9, 9, 9], None),
        (1, 41, &[1, 3, 9, 9, 9, 0], None),
        (1, 41, &[1, 3, 9, 9, 9, 7, 7], None),
        (1, 41, &[1, 3, 9, 9, 9, 0, 0, 0], None),
        (1, 41, &[1, 3, 9, 9, 9, 0, 0, 0, 0], Some(BadSync::Count)),
        (1, 42, &[1, 1, 9, 2, 1, 8], None),
        (1, 36, &[0], Some(BadSync::Count)),
        (1, 37, &[1], Some(BadSync::Options)),
        (1, 38, &[1, 0], Some(BadSync::Options)),
        (1, 38, &[1, 5], Some(BadSync::Options)),
        (1, 39, &[1, 5, 9], Some(BadSync::Options)),
        (1, 40, &[1, 1, 9, 1], Some(BadSync::Options)),
        (2, 39, &[1, 1, 9], Some(BadSync::Count)),
        (2, 41, &[1, 3, 9, 9, 9, 0], Some(BadSync::Count)),
        (2, 41, &[1, 3, 9, 9, 9, 0, 0, 0], Some(BadSync::Count)),
        (
            2,
            41,
            &[1, 3, 9, 9, 9, 0, 0, 0, 0],
            Some(BadSync::RecordShort),
        ),
    ];
    for (count, size, more, want) in table {
        let counted = changed(alloc, VERSION_1, 4, count)?;
        let bytes = sized(alloc, &changed(alloc, &counted, 11, size)?, more)?;
        assert_eq!(rt;
            cause_of(alloc, &bytes)?,
            want,
            "{count} records of {size}, {more:?}"
        );
    }
    Ok(())
}

#[test]
fn an_ipv6_record_is_skipped_whole(rt: HostRuntime) -> Result<(), Fail> {
    let alloc = rt.alloc();
    let mut bytes = b"\x00\x07\x00\x74\x02\x01\x00\x00\x01\x06\x00\x48".to_vec(alloc)?;
    bytes.extend_from_slice(&[0; 68])?;
    bytes.extend_from_slice(VERSION_1.get(8..).unwrap_or(&[]))?;
    let message = read_message(alloc, &bytes)?;
    assert_eq!(rt;
        message.items.as_slice(),
        [SyncItem::V6, SyncItem::V4(CONNECTION)].as_slice()
    );
    Ok(())
}

#[test]
fn more_bytes_of_version_0(rt: HostRuntime) -> Result<(), Fail> {
    let alloc = rt.alloc();
    for (flags, more, want) in [
        (0, 0, None),
        (0, 1, Some(BadSync::Count)),
        (2, 0, Some(BadSync::RecordShort)),
        (4, 23, Some(BadSync::RecordShort)),
        (4, 24, None),
        (6, 24, None),
        (6, 25, Some(BadSync::Count)),
        (8, 0, None),
    ] {
        let bytes = changed(alloc, VERSION_0, 24, flags)?;
        let zeros = [0u8; 32];
        let more = zeros.get(..more).unwrap_or(&[]);
        let bytes = sized(alloc, &bytes, more)?;
        assert_eq!(rt; cause_of(alloc, &bytes)?, want, "flags {flags}, {more:?}");
    }
    Ok(())
}
