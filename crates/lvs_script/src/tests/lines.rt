//! Scripts that are read, and what their lines mean.
use crate::read_script;
use std::test::Fail;

/// Lines, each with the text of what it means.
#[test]
#[rattlefmt::skip]
fn reads_lines(rt: HostRuntime) -> Result<(), Fail> {
    let alloc = rt.alloc();
    for (text, meaning) in [
        ("in 0 45", "[Incoming { mark: 0, bytes: Listed { inner: [69] } }]"),
        ("in 4294967295 45aBFf00", "[Incoming { mark: 4294967295, bytes: Listed { inner: [69, 171, 255, 0] } }]"),
        (" \tin\t0000000007  00 \t", "[Incoming { mark: 7, bytes: Listed { inner: [0] } }]"),
        ("out 4500", "[Outgoing(Listed { inner: [69, 0] })]"),
        ("sync DEADBEEF", "[Sync(Listed { inner: [222, 173, 190, 239] })]"),
        ("ipvs -C", "[Edit(Clear)]"),
        ("ipvs --delete-service --fwmark-service=1", "[Edit(RemoveService(Mark(1)))]"),
        ("ipvs -Lnc", "[Show(Conns)]"),
        ("sysctl net.ipv4.vs.sync_threshold 3 50", "[Set(SyncThreshold(3, 50))]"),
        ("list", "[Show(List)]"),
        ("conns\t", "[Show(Conns)]"),
        ("  save", "[Show(Save)]"),
        ("icmp in 45fF", "[Show(IcmpIn(Listed { inner: [69, 255] }))]"),
        ("icmp\tout  00", "[Show(IcmpOut(Listed { inner: [0] }))]"),
    ] {
        let text = format!(in alloc; "at 0\n{text}\n")?;
        let script = read_script(alloc, text.as_bytes())?;
        let rounds = script.rounds.as_slice();
        assert_eq!(rt; rounds.len(), 1);
        let lines = format!(in alloc; "{:?}", rounds[0].lines.as_slice())?;
        assert_eq!(rt; lines.as_str(), meaning, "at {text}");
    }
    Ok(())
}

/// A script with every kind of line.
fn web_service() -> &'static str {
    "# a web service \u{e9}\0\r\nlocal 10.0.0.254\n\nat 0000000007\nipvs -A -t 10.0.0.1:80 -s wlc\nipvs -a\t-t 10.0.0.1:80 -r 192.168.0.1:8080 -m -w 2\r\nsysctl sloppy_tcp 1\n in 4294967295 45Ab\nout 4500\nsync 00\nlist\nconns\nsave\nipvs -Ln\nat 7"
}

#[test]
fn reads_a_web_service(rt: HostRuntime) -> Result<(), Fail> {
    let alloc = rt.alloc();
    let script = read_script(alloc, web_service().as_bytes())?;
    assert_eq!(rt; script.local.number, 0x0A00_00FE);
    let rounds = script.rounds.as_slice();
    assert_eq!(rt; rounds.len(), 2);
    assert_eq!(rt; rounds[0].moment, 7);
    assert_eq!(rt; rounds[0].lines.as_slice().len(), 10);
    assert_eq!(rt; rounds[1].lines.as_slice().len(), 0);
    Ok(())
}

/// Texts of the same script of two empty rounds.
#[test]
fn reads_line_ends(rt: HostRuntime) -> Result<(), Fail> {
    let alloc = rt.alloc();
    for text in [
        "at 0\nat 4294967295\n",
        "at 0\nat 4294967295",
        "at 0\r\nat 4294967295\r\n",
        "\n\r\n \t\n#\n  # at x\nat 0\n\t# \u{7f}\n\tat   4294967295 \n#",
    ] {
        let script = read_script(alloc, text.as_bytes())?;
        assert_eq!(rt; script.local.number, 0, "at {text}");
        let rounds = script.rounds.as_slice();
        assert_eq!(rt; rounds.len(), 2, "at {text}");
        assert_eq!(rt; rounds[1].moment, 4_294_967_295, "at {text}");
    }
    assert_eq!(rt; read_script(alloc, b"")?.rounds.as_slice().len(), 0);
    assert_eq!(rt;
        read_script(alloc, b"local 01.2.3.4")?.local.number,
        0x0102_0304
    );
    Ok(())
}
