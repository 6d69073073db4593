//! Each call once with ample memory, the refusals, and the order of the look-up of a packet's
//! service.
use crate::{ServiceRefused, Services};
use lvs_types::{Addr, Cursor, DestId, Proto, Scheduler, Service, ServiceKey};
use std::test::Fail;

const VIRTUAL: Addr = Addr {
    number: 0x0A00_0001,
};

/// The web service's key, and the service by turns.
const WEB: ServiceKey = ServiceKey::Net {
    proto: Proto::Tcp,
    addr: VIRTUAL,
    port: 80,
};

const WEB_SERVICE: Service = Service {
    key: WEB,
    scheduler: Scheduler::Rr,
    persist: None,
    mask_bits: 32,
    one_packet: false,
    cursor: Cursor { last: None, cw: 0 },
};

const fn key(port: u16) -> ServiceKey {
    ServiceKey::Net {
        proto: Proto::Tcp,
        addr: VIRTUAL,
        port,
    }
}

const fn service(key: ServiceKey) -> Service {
    Service {
        key,
        scheduler: Scheduler::Rr,
        persist: None,
        mask_bits: 32,
        one_packet: false,
        cursor: Cursor { last: None, cw: 0 },
    }
}

#[test]
fn a_mark_goes_before_an_address_and_a_port_before_port_0(rt: HostRuntime) -> Result<(), Fail> {
    let mut services = Services::new(rt.alloc())?;
    for key in [key(0), key(80), ServiceKey::Mark(7)] {
        assert_eq!(rt; services.add(service(key)), Ok(()));
    }
    let rows = [
        (Proto::Tcp, 80, 7, Some(ServiceKey::Mark(7))),
        (Proto::Udp, 53, 7, Some(ServiceKey::Mark(7))),
        (Proto::Tcp, 80, 8, Some(key(80))),
        (Proto::Tcp, 80, 0, Some(key(80))),
        (Proto::Tcp, 443, 0, Some(key(0))),
        (Proto::Udp, 80, 0, None),
    ];
    for (proto, port, mark, expected) in rows {
        let found = services.find(proto, VIRTUAL, port, mark).map(|s| s.key);
        assert_eq!(rt; found, expected, "at port {port} and mark {mark}");
    }
    Ok(())
}

#[test]
fn a_refused_call_leaves_the_list_and_an_edit_resets_the_cursor(
    rt: HostRuntime,
) -> Result<(), Fail> {
    let mut services = Services::new(rt.alloc())?;
    let turned = Cursor {
        last: Some(DestId(3)),
        cw: 2,
    };
    if services.add(WEB_SERVICE).is_ok() {
        services.set_cursor(&WEB, turned);
    }
    assert_eq!(rt; services.add(service(key(443))), Ok(()));
    assert_eq!(rt; services.get(&key(80)).map(|s| s.cursor), Some(turned));
    assert_eq!(rt; services.add(service(key(80))), Err(ServiceRefused::Exists));
    assert_eq!(rt;
        services.edit(service(key(22))),
        Err(ServiceRefused::NoService)
    );
    assert_eq!(rt; services.remove(&key(22)), Err(ServiceRefused::NoService));
    assert_eq!(rt; services.get(&key(80)).map(|s| s.cursor), Some(turned));
    let edited = Service {
        scheduler: Scheduler::Wlc,
        cursor: turned,
        ..service(key(80))
    };
    assert_eq!(rt; services.edit(edited), Ok(()));
    let expected = Service {
        scheduler: Scheduler::Wlc,
        ..service(key(80))
    };
    assert_eq!(rt; services.list().first().copied(), Some(expected));
    assert_eq!(rt; services.remove(&key(80)), Ok(()));
    assert_eq!(rt; services.list().len(), 1);
    assert!(rt; services.get(&key(80)).is_none());
    Ok(())
}
