//! A sysctl that changes, and copies where there is memory.
use crate::{Bytes, Item, Setting, Settings, Shown};
use std::test::Fail;

#[test]
fn sets_the_named_sysctl(rt: HostRuntime) {
    let mut settings = Settings::initial();
    settings.set(&Setting::SyncThreshold(2, 40));
    settings.set(&Setting::SyncVersion(0));
    assert_eq!(rt;
        (settings.threshold, settings.period, settings.sync_version),
        (2, 40, 0)
    );
    assert_eq!(rt; (settings.reuse_mode, settings.established), (1, 900));
}

#[test]
fn copies_items_and_listings(rt: HostRuntime) -> Result<(), Fail> {
    let alloc = rt.alloc();
    let packet = Item::Incoming {
        mark: 70_000,
        bytes: Bytes::copied(alloc, &[0x45, 0])?,
    };
    assert_eq!(rt; packet.copy(alloc)?, packet);
    let shown = Shown::IcmpIn(Bytes::copied(alloc, &[0x45])?);
    assert_eq!(rt; shown.copy(alloc)?, shown);
    Ok(())
}
