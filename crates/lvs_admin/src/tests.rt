//! Words and sysctls with their meaning, and refused ones with their place and cause.
use crate::{WordsRefused, read_setting, read_setting_slices, read_word_slices, read_words};
use lvs_types::{
    Addr, Command, Cursor, DestSpec, Line, Method, Proto, Scheduler, Service, ServiceKey, Setting,
    SettingCause, Shown, WordsCause,
};
use std::alloc::{AllocError, Global};

/// The virtual address 10.0.0.1, and the real servers' 192.168.0.1.
const VIP: Addr = Addr {
    number: 0x0A00_0001,
};

const REAL: Addr = Addr {
    number: 0xC0A8_0001,
};

fn tcp(port: u16) -> ServiceKey {
    ServiceKey::Net {
        proto: Proto::Tcp,
        addr: VIP,
        port,
    }
}

fn udp(port: u16) -> ServiceKey {
    ServiceKey::Net {
        proto: Proto::Udp,
        addr: VIP,
        port,
    }
}

fn service(key: ServiceKey, scheduler: Scheduler, persist: Option<u32>, mask_bits: u8) -> Service {
    Service {
        key,
        scheduler,
        persist,
        mask_bits,
        one_packet: false,
        cursor: Cursor { last: None, cw: 0 },
    }
}

fn server(method: Method, port: u16, weight: u32, upper: u32, lower: u32) -> DestSpec {
    DestSpec {
        addr: REAL,
        port,
        method,
        weight,
        upper,
        lower,
    }
}

/// The words of a text, parted by one space each.
fn words_of(alloc: Global, text: &str) -> Result<Vec<&[u8]>, AllocError> {
    let mut words = Vec::new(alloc);
    for word in text.split(' ') {
        words.push(word.as_bytes())?;
    }
    Ok(words)
}

fn read(alloc: Global, text: &str) -> Result<Line, WordsRefused> {
    match words_of(alloc, text) {
        Ok(words) => read_word_slices(alloc, &words),
        Err(_) => Err(WordsRefused::NoMemory),
    }
}

fn edit(alloc: Global, text: &str) -> Option<Command> {
    match read(alloc, text) {
        Ok(Line::Edit(command)) => Some(command),
        _ => None,
    }
}

fn refusal(alloc: Global, text: &str) -> Option<(usize, WordsCause)> {
    match read(alloc, text) {
        Err(WordsRefused::Refused { at, cause }) => Some((at, cause)),
        _ => None,
    }
}

#[test]
#[rattlefmt::skip]
fn reads_edits(rt: HostRuntime) {
    use Command::*;
    let ops = Service {
        one_packet: true,
        ..service(udp(53), Scheduler::Rr, None, 32)
    };
    let rows = [
        ("-A -t 10.0.0.1:80", AddService(service(tcp(80), Scheduler::Wlc, None, 32))),
        ("-A -t 10.0.0.1:80 -s rr", AddService(service(tcp(80), Scheduler::Rr, None, 32))),
        ("--add-service --tcp-service=10.0.0.1:80 --scheduler=mh", AddService(service(tcp(80), Scheduler::Mh, None, 32))),
        ("-A -t 10.0.0.1 -p", AddService(service(tcp(0), Scheduler::Wlc, Some(300), 32))),
        ("-E -s fo -p -u 10.0.0.1:53", EditService(service(udp(53), Scheduler::Fo, Some(300), 32))),
        ("-E -t 10.0.0.1:00080 -p 0000000060 -M 255.255.255.0", EditService(service(tcp(80), Scheduler::Wlc, Some(60), 24))),
        ("-A -f 4294967295 -s ovf -pM 0.0.0.0", AddService(service(ServiceKey::Mark(4_294_967_295), Scheduler::Ovf, Some(300), 0))),
        ("-A -u 010.000.00.1:53 -s rr -o", AddService(ops)),
        ("-D -f 1", RemoveService(ServiceKey::Mark(1))),
        ("-C", Clear),
        ("-a -t 10.0.0.1:80 -r 192.168.0.1:8080 -m -w 2147483647", AddServer(tcp(80), server(Method::Masq, 8080, 2_147_483_647, 0, 0))),
        ("-a -t 10.0.0.1:80 -r 192.168.0.1 -m", AddServer(tcp(80), server(Method::Masq, 80, 1, 0, 0))),
        ("-a -t 10.0.0.1:80 -r 192.168.0.1:8080", AddServer(tcp(80), server(Method::Direct, 80, 1, 0, 0))),
        ("-e -f 7 -r 192.168.0.1:8080 -i -w 0 -x 4294967295 -y 3", EditServer(ServiceKey::Mark(7), server(Method::Tunnel, 0, 0, 4_294_967_295, 3))),
        ("-d -t 10.0.0.1:80 -r 192.168.0.1:8080", RemoveServer(tcp(80), REAL, 8080)),
        ("-d -t 10.0.0.1:80 -r 192.168.0.1", RemoveServer(tcp(80), REAL, 80)),
        ("--set 0 120 2678400", Timeouts(0, 120, 2_678_400)),
        ("--start-daemon master", StartMaster(0)),
        ("--start-daemon=backup --syncid 255 --mcast-interface -e0", StartBackup(255)),
        ("--stop-daemon master --syncid 9", StopMaster),
        ("--stop-daemon backup", StopBackup),
    ];
    for (text, want) in rows {
        assert_eq!(rt; edit(rt.alloc(), text), Some(want), "at {text}");
    }
}

#[test]
#[rattlefmt::skip]
fn reads_listings(rt: HostRuntime) {
    for (text, want) in [
        ("-L", Shown::List),
        ("-l -n", Shown::List),
        ("-Ln", Shown::List),
        ("--list --numeric --connection", Shown::Conns),
        ("-Lcn", Shown::Conns),
        ("-Sn", Shown::Save),
    ] {
        let shown = match read(rt.alloc(), text) {
            Ok(Line::Show(shown)) => Some(shown),
            _ => None,
        };
        assert_eq!(rt; shown, Some(want), "at {text}");
    }
}

#[test]
#[rattlefmt::skip]
fn refuses_words(rt: HostRuntime) {
    use WordsCause::*;
    for (text, at, cause) in [
        // the first word
        ("", 0, UnknownOption),
        ("add", 0, UnknownOption),
        ("-t 10.0.0.1:80", 0, UnknownOption),
        ("-AB", 1, UnknownOption),
        // one word: Extra, UnknownOption, Repeated, Conflict
        ("-A t", 1, Extra),
        ("-A -t 10.0.0.1:80 -p 300 300", 5, Extra),
        ("-A -t 10.0.0.1:80 --persistent=", 4, Extra),
        ("-C x", 1, Extra),
        ("-A -z -z", 1, UnknownOption),
        ("-A -w5", 1, UnknownOption),
        ("-A -t 10.0.0.1:80 -t 10.0.0.1:80", 3, Repeated),
        ("-a -g -g", 2, Repeated),
        ("-A -s rr --scheduler wlc", 3, Repeated),
        ("-Lnn", 2, Repeated),
        ("-A -t 10.0.0.1:80 -A", 3, Conflict),
        ("-A -t 10.0.0.1:80 -u 10.0.0.1:80", 3, Conflict),
        ("-a -m -g", 2, Conflict),
        ("-D -t 10.0.0.1:80 -s rr", 3, Conflict),
        ("-S -c", 1, Conflict),
        ("--set 1 2 3 -n", 4, Conflict),
        // a value that is missing or doesn't fit
        ("-A -t", 2, Missing),
        ("-A -t 10.0.0.1:80 -s", 4, Missing),
        ("--set 1 2", 3, Missing),
        ("--start-daemon", 1, Missing),
        ("--start-daemon slave", 1, UnknownOption),
        ("--set 1 2678401", 2, BadNumber),
        ("-A -f 0", 2, BadNumber),
        ("-A -f 4294967296", 2, BadNumber),
        ("-A -t 10.0.0.1:80 -p 0", 4, BadNumber),
        ("-A -t 10.0.0.1:80 -p 00000000001", 4, BadNumber),
        ("-a -t 10.0.0.1:80 -r 192.168.0.1 -w 2147483648", 6, BadNumber),
        ("-a -t 10.0.0.1:80 -r 192.168.0.1 -w +1", 6, BadNumber),
        ("--stop-daemon master --syncid 256", 3, BadNumber),
        ("-A -t 256.0.0.0", 2, BadAddress),
        ("-A -t 1.2.3", 2, BadAddress),
        ("-A -t 0001.2.3.4", 2, BadAddress),
        ("-A -t 10.0.0.1:65536", 2, BadAddress),
        ("-a -t 10.0.0.1:80 -g -r 192.168.0.1:", 5, BadAddress),
        ("-A -t 10.0.0.1:80 -p -M 255.0.255.0", 5, BadAddress),
        ("-A -t 10.0.0.1:80 -s xx", 4, BadScheduler),
        ("-A -t 10.0.0.1:80 -s -rr", 4, BadScheduler),
        ("-A -t 10.0.0.1:80 --scheduler=", 4, BadScheduler),
        // from left to right
        ("-A -s xx -z", 2, BadScheduler),
        ("-A -z -s xx", 1, UnknownOption),
        ("-A -t 10.0.0.1:x -p 0", 2, BadAddress),
        // after the last word
        ("-A -M 255.0.0.0", 3, Missing),
        ("-a -r 192.168.0.1", 3, Missing),
        ("-d -t 10.0.0.1:80", 3, Missing),
        ("-A -t 10.0.0.1:80 -o -M 255.0.0.0", 4, Conflict),
        ("-A -t 10.0.0.1:80 -o", 3, Conflict),
        ("-A -t 10.0.0.1 -o", 3, Conflict),
        ("-A -t 10.0.0.1:0 -s rr", 2, ZeroPort),
        ("-A -s rr -u 10.0.0.1", 4, ZeroPort),
        ("-E --tcp-service=10.0.0.1", 2, ZeroPort),
    ] {
        assert_eq!(rt; refusal(rt.alloc(), text), Some((at, cause)), "at {text}");
    }
}

#[test]
#[rattlefmt::skip]
fn reads_settings(rt: HostRuntime) {
    use SettingCause::*;
    for (text, want) in [
        ("expire_nodest_conn 1", Ok(Setting::ExpireNodest(1))),
        ("net.ipv4.vs.expire_quiescent_template 2147483647", Ok(Setting::ExpireQuiescent(2_147_483_647))),
        ("sloppy_tcp 0000000001", Ok(Setting::SloppyTcp(1))),
        ("conn_reuse_mode 1", Ok(Setting::ReuseMode(1))),
        ("sync_threshold 3 50", Ok(Setting::SyncThreshold(3, 50))),
        ("net.ipv4.vs.sync_threshold 50 0", Ok(Setting::SyncThreshold(50, 0))),
        ("sync_version 0", Ok(Setting::SyncVersion(0))),
        ("", Err(UnknownName)),
        ("sync_period 3", Err(UnknownName)),
        ("net.ipv4.vs.net.ipv4.vs.sloppy_tcp 1", Err(UnknownName)),
        ("drop_entry", Err(UnknownName)),
        ("sloppy_tcp", Err(BadValue)),
        ("sloppy_tcp 1 2", Err(BadValue)),
        ("sloppy_tcp 2147483648", Err(BadValue)),
        ("sloppy_tcp 00000000001", Err(BadValue)),
        ("conn_reuse_mode 2", Err(BadValue)),
        ("sync_version -1", Err(BadValue)),
        ("sync_threshold 3", Err(BadValue)),
        ("sync_threshold 3 3", Err(BadValue)),
        ("sync_threshold 3 50 1", Err(BadValue)),
    ] {
        let setting = match words_of(rt.alloc(), text) {
            Ok(words) => read_setting_slices(&words),
            Err(_) => Err(UnknownName),
        };
        assert_eq!(rt; setting, want, "at {text}");
    }
}

#[test]
#[rattlefmt::skip]
fn reads_owned_words(rt: HostRuntime) -> Result<(), AllocError> {
    let alloc = rt.alloc();
    let words = vec![in alloc; String::from_str(alloc, "-L")?, String::from_str(alloc, "-c")?]?;
    assert!(rt; matches!(read_words(alloc, &words), Ok(Line::Show(Shown::Conns))));
    assert!(rt; matches!(
        read_words(alloc, &words[..0]),
        Err(WordsRefused::Refused { at: 0, cause: WordsCause::Missing })
    ));
    let words = vec![in alloc; String::from_str(alloc, "sloppy_tcp")?, String::from_str(alloc, "1")?]?;
    assert_eq!(rt; read_setting(&words), Ok(Setting::SloppyTcp(1)));
    assert_eq!(rt; read_setting(&words[..0]), Err(SettingCause::UnknownName));
    Ok(())
}
