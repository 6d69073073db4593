//! Entries and timers put in, one after the other.
ghost use Rattle.std.specs.Prelude.{◌≡◌, ◌<◌, ◌^◌, [], OnOk};
ghost use Rattle.std.specs.List.{AllByRecursion};
ghost use Rattle.lvs_times.specs.Numbered.{deadline_by, IsTimed};

use crate::load::{Load, Timeouts};
use lvs_entries::Entries;
use lvs_timer::Timers;
use lvs_types::{Addr, Entry, Key, Method, NoMemory, Proto};

const VIRTUAL: Addr = Addr {
    number: 0x0A00_0001,
};

const SERVER: Addr = Addr {
    number: 0xC0A8_0001,
};

/// The key of an entry: a client's address for each number.
pub(crate) fn key_of(number: u32) -> Key
    ensures { result.caddr.number ≡ number }
{
    Key {
        proto: Proto::Tcp,
        caddr: Addr { number },
        cport: 40000,
        vaddr: VIRTUAL,
        vport: 80,
    }
}

fn entry_of(number: u32) -> Entry
    ensures id { result.id ≡ number }
    ensures client { result.key.caddr.number ≡ number }
{
    Entry {
        id: u64::from(number),
        key: key_of(number),
        server: None,
        method: Method::Masq,
        daddr: SERVER,
        dport: 8080,
        state: None,
        timeout: 60,
        deadline: 60,
        packets: 1,
        template: None,
        mark: 0,
    }
}

/// Puts in so many entries, numbered from 0 on.
pub(crate) fn put_all(entries: &mut Entries, count: u32) -> Result<(), NoMemory>
    requires { entries.old.entries ≡ [] }
{
    for number in 0..count {
        entries.reserve()?;
        entries.insert(entry_of(number));
    }
    Ok(())
}

/// The deadline of an id.
pub(crate) fn deadline_of(id: u64, load: Load) -> u64
    requires few { id < 2 ^ 32 }
    requires some { 0 < load.count }
    ensures { result ≡ deadline_by load id }
{
    let count = u64::from(load.count);
    match load.timeouts {
        Timeouts::One => 60 + id * 10 / count,
        Timeouts::Two => 60 + id * 5 / count + id % 2 * 5,
        Timeouts::Ten => 60 + id % 10,
    }
}

/// Arms so many ids, numbered from 0 on.
pub(crate) fn arm_all(timers: &mut Timers, load: Load) -> Result<(), NoMemory>
    requires none { timers.old.timers ≡ [] }
    requires some { 0 < load.count }
    ensures { OnOk result (AllByRecursion (IsTimed load) timers.new.timers) }
{
    for number in 0..load.count {
        let id = u64::from(number);
        timers.reserve()?;
        timers.arm(id, deadline_of(id, load));
    }
    Ok(())
}
