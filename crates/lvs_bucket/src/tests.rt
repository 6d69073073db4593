//! What no contract says: each call has an answer where there is ample memory.
use crate::Bucket;
use lvs_types::{Addr, Change, Entry, Found, Item, Key, Method, Proto};
use std::test::Fail;

/// A connection that is due at 60.
const ENTRY: Entry = Entry {
    id: 1,
    key: Key {
        proto: Proto::Udp,
        caddr: Addr {
            number: 0xAC10_0009,
        },
        cport: 5353,
        vaddr: Addr {
            number: 0x0A00_0001,
        },
        vport: 53,
    },
    server: None,
    method: Method::Masq,
    daddr: Addr {
        number: 0xC0A8_0001,
    },
    dport: 53,
    state: None,
    timeout: 60,
    deadline: 60,
    packets: 1,
    template: None,
    mark: 0,
};

#[test]
fn an_entry_comes_and_is_swept(rt: HostRuntime) -> Result<(), Fail> {
    let alloc = rt.alloc();
    let mut bucket = Bucket::new(alloc, 2, 16)?;
    assert_eq!(rt; (bucket.number(), bucket.buckets()), (2, 16));
    let before = bucket.prepare(alloc, &Item::Sweep(2), None, 60)?;
    assert!(rt; matches!(&before, Found::Due(due) if due.as_slice().is_empty()));
    bucket.apply(&Change::Put(ENTRY));
    assert_eq!(rt; bucket.all(alloc)?.as_slice(), [ENTRY].as_slice());
    let due = bucket.prepare(alloc, &Item::Sweep(2), None, 60)?;
    assert!(rt; matches!(&due, Found::Due(due) if due.as_slice() == [ENTRY].as_slice()));
    bucket.apply(&Change::EndDue(60));
    assert!(rt; bucket.all(alloc)?.is_empty());
    Ok(())
}
