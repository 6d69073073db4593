//! The three listings of a director with an ordinary web service, and texts that are read back.
use crate::{RestoreRefused, list, list_conns, restore, save};
use lvs_types::{
    Addr, Bytes, Command, Cursor, Daemons, Dest, DestId, DestRow, DestSpec, Entry, Key, Listed,
    Method, NoMemory, Proto, Scheduler, Service, ServiceKey, Settings, Snapshot, TcpState,
    Template, TemplateId, TemplateKey, WordsCause,
};
use std::alloc::Global;
use std::test::Fail;

const VIRTUAL: Addr = Addr {
    number: 0x0A00_0001,
};

const CLIENT: Addr = Addr {
    number: 0xAC10_0009,
};

const WEB: ServiceKey = ServiceKey::Net {
    proto: Proto::Tcp,
    addr: VIRTUAL,
    port: 80,
};

const NAMES: ServiceKey = ServiceKey::Net {
    proto: Proto::Udp,
    addr: VIRTUAL,
    port: 53,
};

/// A service with nothing but a key and a scheduler.
fn plain_service(key: ServiceKey, scheduler: Scheduler) -> Service {
    Service {
        key,
        scheduler,
        persist: None,
        mask_bits: 32,
        one_packet: false,
        cursor: Cursor {
            last: Some(DestId(1)),
            cw: 3,
        },
    }
}

/// A masqueraded server of the web service at 192.168.0.1 or 192.168.0.2.
fn web_server(id: u64, number: u32, weight: u32) -> Dest {
    Dest {
        id: DestId(id),
        service: WEB,
        spec: DestSpec {
            addr: Addr { number },
            port: 8080,
            method: Method::Masq,
            weight,
            upper: 0,
            lower: 0,
        },
        overloaded: false,
        live: true,
    }
}

fn row(dest: Dest, active: u64, inactive: u64) -> DestRow {
    DestRow {
        dest,
        active,
        inactive,
        templates: 0,
    }
}

/// The connection of 172.16.0.9:40000 to the web service, at the first server.
fn connection(deadline: u64) -> Entry {
    Entry {
        id: 1,
        key: Key {
            proto: Proto::Tcp,
            caddr: CLIENT,
            cport: 40_000,
            vaddr: VIRTUAL,
            vport: 80,
        },
        server: Some(DestId(1)),
        method: Method::Masq,
        daddr: Addr {
            number: 0xC0A8_0001,
        },
        dport: 8080,
        state: Some(TcpState::Established),
        timeout: 900,
        deadline,
        packets: 2,
        template: None,
        mark: 0,
    }
}

/// The template of 172.16.0.9 and a service.
fn template(code: u8, vport: u16, deadline: u64) -> Template {
    Template {
        id: TemplateId(1),
        key: TemplateKey {
            code,
            client: CLIENT,
            vaddr: VIRTUAL,
            vport,
        },
        server: Some(DestId(1)),
        method: Method::Direct,
        daddr: Addr {
            number: 0xC0A8_0001,
        },
        dport: vport,
        timeout: 300,
        deadline,
    }
}

/// Tables at 100 seconds.
fn tables(
    alloc: Global,
    services: &[Service],
    dests: &[DestRow],
    entries: &[Entry],
    templates: &[Template],
) -> Result<Snapshot, NoMemory> {
    Ok(Snapshot {
        now: 100,
        local: Addr {
            number: 0x0A00_00FE,
        },
        settings: Settings::initial(),
        daemons: Daemons {
            master: Some(7),
            backup: None,
        },
        services: Listed::from_vec(services.to_vec(alloc)?),
        dests: Listed::from_vec(dests.to_vec(alloc)?),
        templates: Listed::from_vec(templates.to_vec(alloc)?),
        entries: Listed::from_vec(entries.to_vec(alloc)?),
        pending: Listed::new(alloc),
    })
}

/// The tables of a web service by NAT with two servers and one connection.
fn web_tables(alloc: Global) -> Result<Snapshot, NoMemory> {
    tables(
        alloc,
        &[plain_service(WEB, Scheduler::Wlc)],
        &[
            row(web_server(1, 0xC0A8_0001, 2), 1, 0),
            row(web_server(2, 0xC0A8_0002, 1), 0, 0),
        ],
        &[connection(1_000)],
        &[],
    )
}

#[test]
fn an_ordinary_web_service(rt: HostRuntime) -> Result<(), Fail> {
    let alloc = rt.alloc();
    let tables = web_tables(alloc)?;
    assert_eq!(rt;
        list(alloc, &tables)?.as_slice(),
        b"TCP 10.0.0.1:80 wlc\n  -> 192.168.0.1:8080 Masq 2 1 0\n  -> 192.168.0.2:8080 Masq 1 0 0\n".as_slice()
    );
    assert_eq!(rt;
        list_conns(alloc, &tables)?.as_slice(),
        b"TCP 900 ESTABLISHED 172.16.0.9:40000 10.0.0.1:80 192.168.0.1:8080\n".as_slice()
    );
    assert_eq!(rt;
        save(alloc, &tables)?.as_slice(),
        b"-A -t 10.0.0.1:80 -s wlc\n-a -t 10.0.0.1:80 -r 192.168.0.1:8080 -m -w 2\n-a -t 10.0.0.1:80 -r 192.168.0.2:8080 -m -w 1\n".as_slice()
    );
    Ok(())
}

/// A persistent service of names with one-packet scheduling and a mask.
fn names_service() -> Service {
    let mut names = plain_service(NAMES, Scheduler::Rr);
    names.persist = Some(300);
    names.mask_bits = 24;
    names.one_packet = true;
    names
}

/// A direct server of mark 7 with thresholds.
fn marked_server() -> Dest {
    let mut direct = web_server(3, 0xC0A8_0003, 0);
    direct.service = ServiceKey::Mark(7);
    direct.spec.method = Method::Direct;
    direct.spec.port = 0;
    direct.spec.upper = 10;
    direct.spec.lower = 5;
    direct
}

/// A service of names whose server is in the trash, a mark, and templates of every kind.
fn many_tables(alloc: Global) -> Result<Snapshot, NoMemory> {
    let mut trashed = web_server(4, 0xC0A8_0004, 1);
    trashed.service = NAMES;
    trashed.live = false;
    tables(
        alloc,
        &[
            names_service(),
            plain_service(ServiceKey::Mark(7), Scheduler::Mh),
        ],
        &[row(marked_server(), 0, 2), row(trashed, 1, 0)],
        &[connection(99)],
        &[
            template(17, 53, 400),
            template(6, 80, 100),
            template(0, 0, 160),
        ],
    )
}

#[test]
fn services_of_every_kind(rt: HostRuntime) -> Result<(), Fail> {
    let alloc = rt.alloc();
    let tables = many_tables(alloc)?;
    assert_eq!(rt;
        list(alloc, &tables)?.as_slice(),
        b"UDP 10.0.0.1:53 rr persistent 300 mask 255.255.255.0 ops\nFWM 7 mh\n  -> 192.168.0.3:0 Route 0 0 2\n".as_slice()
    );
    assert_eq!(rt;
        list_conns(alloc, &tables)?.as_slice(),
        b"TCP 0 ESTABLISHED 172.16.0.9:40000 10.0.0.1:80 192.168.0.1:8080\nTPL 300 UDP 172.16.0.9:0 10.0.0.1:53 192.168.0.1:53\nTPL 0 TCP 172.16.0.9:0 10.0.0.1:80 192.168.0.1:80\nTPL 60 IP 172.16.0.9:0 10.0.0.1:0 192.168.0.1:0\n".as_slice()
    );
    assert_eq!(rt;
        save(alloc, &tables)?.as_slice(),
        b"-A -u 10.0.0.1:53 -s rr -p 300 -M 255.255.255.0 -o\n-A -f 7 -s mh\n-a -f 7 -r 192.168.0.3:0 -g -w 0 -x 10 -y 5\n".as_slice()
    );
    Ok(())
}

/// The service of a command that adds one, with a cursor that begins anew.
fn added(mut service: Service) -> Command {
    service.cursor = Cursor { last: None, cw: 0 };
    Command::AddService(service)
}

#[test]
fn saved_tables_are_read_back(rt: HostRuntime) -> Result<(), Fail> {
    let alloc = rt.alloc();
    let tables = many_tables(alloc)?;
    let commands = restore(alloc, save(alloc, &tables)?.as_slice())?;
    let expected = [
        added(names_service()),
        added(plain_service(ServiceKey::Mark(7), Scheduler::Mh)),
        Command::AddServer(ServiceKey::Mark(7), marked_server().spec),
    ];
    assert_eq!(rt; commands.as_slice(), expected.as_slice());
    Ok(())
}

/// What `ipvsadm -S -n` (version 1.31, Linux 6.1) prints, without its words `--tun-type ipip`.
const FROM_LINUX: &[u8] =
    b"-A -t 10.0.0.1:80 -s wlc\n-a -t 10.0.0.1:80 -r 192.168.0.1:8080 -m -w 2\n-a -t 10.0.0.1:80 -r 192.168.0.2:80 -g -w 1\n-a -t 10.0.0.1:80 -r 192.168.0.7:80 -i -w 1\n-A -u 10.0.0.1:53 -s rr -p 300 -M 255.255.255.0 -o\n-a -u 10.0.0.1:53 -r 192.168.0.1:53 -m -w 1 -x 100 -y 50\n-A -f 7 -s sh\n-a -f 7 -r 192.168.0.1:0 -g -w 1\n";

#[test]
fn what_linux_saves_is_read(rt: HostRuntime) -> Result<(), Fail> {
    let alloc = rt.alloc();
    let commands = restore(alloc, FROM_LINUX)?;
    assert_eq!(rt; commands.len(), 8);
    let mut tunnel = web_server(0, 0xC0A8_0007, 1).spec;
    tunnel.method = Method::Tunnel;
    tunnel.port = 80;
    assert_eq!(rt; commands[3], Command::AddServer(WEB, tunnel));
    Ok(())
}

/// A refused line, by its number, the number of its word and the cause.
fn refuses(alloc: Global, text: &[u8], at_line: u64, word: usize, why: WordsCause) -> bool {
    match restore(alloc, text) {
        Err(RestoreRefused::Refused { line, at, cause }) => {
            line == at_line && at == word && cause == why
        }
        _ => false,
    }
}

#[test]
fn the_first_bad_line_is_refused(rt: HostRuntime) -> Result<(), Fail> {
    let alloc = rt.alloc();
    assert_eq!(rt; restore(alloc, b"\n# saved \x00\n \t\n")?.len(), 0);
    assert_eq!(rt; restore(alloc, b"-C\r\n-A -f 7")?.len(), 2);
    assert!(rt;
        refuses(
            alloc,
            b"-C\n-a -f 7 -r 10.0.0.1 --tun-type ipip\n-x\n",
            2,
            5,
            WordsCause::UnknownOption
        )
    );
    assert!(rt; refuses(alloc, b"-C\n\n-L -n", 3, 0, WordsCause::Extra));
    assert!(rt; refuses(alloc, b"-C \x00", 1, 0, WordsCause::UnknownOption));
    assert!(rt; refuses(alloc, b"-A", 1, 1, WordsCause::Missing));
    Ok(())
}

#[test]
fn an_empty_director_has_empty_listings(rt: HostRuntime) -> Result<(), Fail> {
    let alloc = rt.alloc();
    let tables = tables(alloc, &[], &[], &[], &[])?;
    let texts: [Bytes; 3] = [
        list(alloc, &tables)?,
        list_conns(alloc, &tables)?,
        save(alloc, &tables)?,
    ];
    for text in &texts {
        assert!(rt; text.as_slice().is_empty());
    }
    Ok(())
}
