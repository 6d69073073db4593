//! Look-ups in chains against those of a plain list.
ghost use Rattle.std.specs.Prelude.{◌≡◌, ◌≤◌, ◌<◌, ◌+◌, ◌^◌, count_by};
ghost use Rattle.lvs_entries.specs.Chains.{key_chain, is_in_chain};

use crate::Entries;
use lvs_types::{Addr, Entry, Key, Method, Proto, Steps};
use std::alloc::Global;
use std::marker::Brand;
use std::sync::ledger::{Blank, Ledger};
use std::test::Fail;

const CLIENT: Addr = Addr {
    number: 0xAC10_0009,
};

const VIRTUAL: Addr = Addr {
    number: 0x0A00_0001,
};

const SERVER: Addr = Addr {
    number: 0xC0A8_0001,
};

const FIRST: Entry = Entry {
    id: 1,
    key: Key {
        proto: Proto::Tcp,
        caddr: CLIENT,
        cport: 40000,
        vaddr: VIRTUAL,
        vport: 80,
    },
    server: None,
    method: Method::Masq,
    daddr: SERVER,
    dport: 8080,
    state: None,
    timeout: 60,
    deadline: 60,
    packets: 1,
    template: None,
    mark: 0,
};

const SECOND: Entry = Entry {
    id: 2,
    key: Key {
        proto: Proto::Tcp,
        caddr: CLIENT,
        cport: 40001,
        vaddr: VIRTUAL,
        vport: 80,
    },
    server: None,
    method: Method::Masq,
    daddr: SERVER,
    dport: 8080,
    state: None,
    timeout: 60,
    deadline: 60,
    packets: 1,
    template: None,
    mark: 0,
};

/// A look-up by key in a chain of at most one entry takes at most one step.
fn look_once<L: Ledger>(entries: &Entries, key: &Key, steps: &mut Steps<L>) -> Option<Entry>
    requires young { steps.old < 2 ^ 62 }
    requires alone { count_by (is_in_chain (key_chain key.now)) entries.now.entries ≤ 1 }
    ensures { steps.new ≤ steps.old + 1 }
{
    entries.find_in_counted(key, steps).copied()
}

fn look_at_both<L: Ledger>(
    alloc: Global,
    blank: Blank,
) -> Result<(Option<Entry>, Option<Entry>), Fail>
    requires one_part { blank.parts ≡ 1 }
    requires name { blank.name ≡ L.name }
    requires parts { blank.parts ≡ L.parts }
{
    let mut entries = Entries::new(alloc)?;
    entries.reserve()?;
    entries.insert(FIRST);
    entries.reserve()?;
    entries.insert(SECOND);
    let mut steps = Steps::<L>::new(blank);
    let first = look_once(&entries, &FIRST.key, &mut steps);
    let second = look_once(&entries, &SECOND.key, &mut steps);
    Ok((first, second))
}

#[test]
fn takes_one_step_in_a_chain_of_one(rt: HostRuntime) -> Result<(), Fail> {
    let found = look_at_both::<Brand>(rt.alloc(), Blank::new(1))?;
    assert_eq!(rt; found, (Some(FIRST), Some(SECOND)));
    Ok(())
}

/// Puts in an entry where its id and its key are free.
fn put(entries: &mut Entries, entry: Entry) -> Result<bool, Fail> {
    let None = entries.get(entry.id) else {
        return Ok(false);
    };
    let None = entries.find_in(&entry.key) else {
        return Ok(false);
    };
    entries.reserve()?;
    entries.insert(entry);
    Ok(true)
}

/// Counts one more packet of an entry that is there.
fn count_packet(entries: &mut Entries, id: u64) {
    if let Some(&old) = entries.get(id) {
        let packets = old.packets.saturating_add(1);
        entries.update(Entry { id, packets, ..old });
    }
}

#[test]
fn answers_a_reply_by_the_least_id(rt: HostRuntime) -> Result<(), Fail> {
    let mut entries = Entries::new(rt.alloc())?;
    let other = Key {
        vport: 81,
        ..FIRST.key
    };
    assert!(rt;
        put(
            &mut entries,
            Entry {
                id: 7,
                key: other,
                ..FIRST
            }
        )?
    );
    assert!(rt; put(&mut entries, FIRST)?);
    let found = entries.find_out(Proto::Tcp, SERVER, 8080, CLIENT, 40000);
    assert_eq!(rt; found.map(|e| e.id), Some(1));
    assert_eq!(rt; entries.remove(1), Some(FIRST));
    let found = entries.find_out(Proto::Tcp, SERVER, 8080, CLIENT, 40000);
    assert_eq!(rt; found.map(|e| e.id), Some(7));
    assert!(rt;
        entries
            .find_out(Proto::Tcp, SERVER, 8081, CLIENT, 40000)
            .is_none()
    );
    Ok(())
}

#[test]
fn puts_a_removed_key_back(rt: HostRuntime) -> Result<(), Fail> {
    let mut entries = Entries::new(rt.alloc())?;
    assert!(rt; put(&mut entries, FIRST)?);
    assert!(rt; !put(&mut entries, Entry { id: 2, ..FIRST })?);
    assert_eq!(rt; entries.remove(1), Some(FIRST));
    assert_eq!(rt; entries.remove(1), None);
    assert!(rt; entries.find_in(&FIRST.key).is_none());
    assert!(rt; put(&mut entries, Entry { id: 2, ..FIRST })?);
    assert_eq!(rt; entries.find_in(&FIRST.key).map(|e| e.id), Some(2));
    Ok(())
}

/// The next of a row of mixed numbers.
fn next(number: u32) -> u32 {
    number.wrapping_mul(1664525).wrapping_add(1013904223)
}

/// An entry of one of 32 client ports and one of 2 virtual ports.
fn entry(id: u64, number: u32) -> Entry {
    let cport = 40000 + (number / 65536 % 32) as u16;
    let vport = 80 + (number / 4194304 % 2) as u16;
    Entry {
        id,
        key: Key {
            cport,
            vport,
            ..FIRST.key
        },
        ..FIRST
    }
}

#[test]
fn agrees_with_a_plain_list(rt: HostRuntime) -> Result<(), Fail> {
    let alloc = rt.alloc();
    let mut entries = Entries::new(alloc)?;
    let mut plain: Vec<Entry> = Vec::new(alloc);
    let mut number = 1;
    for id in 1..400 {
        number = next(number);
        let new = entry(id, number);
        if put(&mut entries, new)? {
            plain.push(new)?;
        }
        let old = u64::from(number / 256) % id;
        if number / 16 % 3 == 0 {
            let removed = entries.remove(old);
            assert_eq!(rt;
                removed,
                plain.iter().find(|e| e.id == old).copied(),
                "id {old}"
            );
            plain.retain(|e| e.id != old);
        } else {
            count_packet(&mut entries, old);
            if let Some(e) = plain.iter_mut().find(|e| e.id == old) {
                e.packets = e.packets.saturating_add(1);
            }
        }
        let key = entry(id, next(number)).key;
        let found = plain.iter().find(|e| e.key == key);
        assert_eq!(rt;
            entries.find_in(&key).copied(),
            found.copied(),
            "key {key:?}"
        );
        let found = plain.iter().find(|e| e.key.cport == key.cport);
        let reply = entries.find_out(Proto::Tcp, SERVER, 8080, CLIENT, key.cport);
        assert_eq!(rt; reply.copied(), found.copied(), "port {}", key.cport);
        let found = plain.iter().find(|e| e.id == old);
        assert_eq!(rt; entries.get(old).copied(), found.copied(), "id {old}");
    }
    assert_eq!(rt; entries.all(alloc)?.as_slice(), plain.as_slice());
    Ok(())
}
