//! One line for each text of a reply.
use crate::{print_icmp_answer, print_round};
use lvs_types::{
    Addr, BadSync, Bytes, DropCause, EditRefused, IcmpAnswer, Item, Learnt, Listed, Malformed,
    Method, NoMemory, Noted, Reply, RoundBook, Shown, ShownText,
};
use std::alloc::Global;
use std::test::Fail;

fn copied(alloc: Global, text: &[u8]) -> Result<Bytes, NoMemory> {
    Ok(Bytes::copied(alloc, text)?)
}

fn act_with(number: u64, reply: Reply) -> Noted {
    Noted {
        actor: 3,
        number,
        item: Item::Reap,
        reply,
    }
}

fn plain(alloc: Global) -> Result<Vec<Reply>, NoMemory> {
    let mut replies = Vec::new(alloc);
    replies.push(Reply::Pass)?;
    replies.push(Reply::Drop(DropCause::NoDest))?;
    replies.push(Reply::Drop(DropCause::Gone))?;
    replies.push(Reply::Drop(DropCause::TooLong))?;
    replies.push(Reply::Done)?;
    replies.push(Reply::Ticked)?;
    replies.push(Reply::Swept(0))?;
    replies.push(Reply::Swept(12))?;
    replies.push(Reply::Reaped {
        templates: 0,
        renewed: 0,
        servers: 0,
    })?;
    replies.push(Reply::Reaped {
        templates: 1,
        renewed: 0,
        servers: 23,
    })?;
    Ok(replies)
}

fn packets(alloc: Global) -> Result<Vec<Reply>, NoMemory> {
    let to = Addr {
        number: 0xC0A8_0001,
    };
    let mut replies = Vec::new(alloc);
    for method in [Method::Masq, Method::Tunnel, Method::Direct] {
        replies.push(Reply::Forward {
            method,
            to,
            bytes: copied(alloc, &[0x45, 0x00, 0xff])?,
        })?;
    }
    replies.push(Reply::Outward(copied(alloc, &[0xa0])?))?;
    replies.push(Reply::Sent(Listed::new(alloc)))?;
    let mut messages = Vec::new(alloc);
    messages.push(copied(alloc, &[1])?)?;
    messages.push(copied(alloc, &[2, 3])?)?;
    replies.push(Reply::Sent(Listed::from_vec(messages)))?;
    Ok(replies)
}

fn causes(alloc: Global) -> Result<Vec<Reply>, NoMemory> {
    let mut replies = Vec::new(alloc);
    for cause in [
        Malformed::Short,
        Malformed::Version,
        Malformed::HeaderLength,
        Malformed::TotalLength,
        Malformed::HeaderSum,
        Malformed::L4Short,
    ] {
        replies.push(Reply::Drop(DropCause::Malformed(cause)))?;
    }
    for cause in [
        EditRefused::Exists,
        EditRefused::NoService,
        EditRefused::NoDest,
        EditRefused::Thresholds,
        EditRefused::Running,
        EditRefused::NotRunning,
    ] {
        replies.push(Reply::Refused(cause))?;
    }
    for answer in [
        Learnt::Accepted,
        Learnt::Off,
        Learnt::OtherId,
        Learnt::V6,
        Learnt::BadProto,
        Learnt::BadState,
        Learnt::BadMethod,
    ] {
        replies.push(Reply::Learnt(answer))?;
    }
    for cause in [
        BadSync::Short,
        BadSync::Version,
        BadSync::Size,
        BadSync::RecordShort,
        BadSync::RecordVersion,
        BadSync::Options,
        BadSync::Count,
    ] {
        replies.push(Reply::BadMessage(cause))?;
    }
    Ok(replies)
}

fn printed(
    alloc: Global,
    replies: Vec<Reply>,
    shown: Listed<ShownText>,
) -> Result<Bytes, NoMemory> {
    let mut acts = Vec::new(alloc);
    for reply in replies {
        acts.push(act_with(7, reply))?;
    }
    let book = RoundBook {
        number: 2,
        moment: 4_294_967_295,
        workers: 16,
        buckets: 256,
        acts: Listed::from_vec(acts),
        shown,
    };
    print_round(alloc, &book)
}

#[test]
fn what_changes_nothing_has_no_line(rt: HostRuntime) -> Result<(), Fail> {
    let alloc = rt.alloc();
    let text = printed(alloc, plain(alloc)?, Listed::new(alloc))?;
    assert_eq!(rt;
        text.as_slice(),
        b"round 2 at 4294967295 workers 16 buckets 256\n0 3.7 pass\n1 3.7 drop nodest\n2 3.7 drop gone\n3 3.7 drop toolong\n4 3.7 ok\n7 3.7 swept 12\n9 3.7 reaped 1 0 23\n".as_slice()
    );
    Ok(())
}

#[test]
fn packets_are_lower_case_digits(rt: HostRuntime) -> Result<(), Fail> {
    let alloc = rt.alloc();
    let text = printed(alloc, packets(alloc)?, Listed::new(alloc))?;
    assert_eq!(rt;
        text.as_slice(),
        b"round 2 at 4294967295 workers 16 buckets 256\n0 3.7 fwd masq 192.168.0.1 4500ff\n1 3.7 fwd tunnel 192.168.0.1 4500ff\n2 3.7 fwd direct 192.168.0.1 4500ff\n3 3.7 out a0\n5 3.7 sent 01 0203\n".as_slice()
    );
    Ok(())
}

#[test]
fn causes_are_their_names(rt: HostRuntime) -> Result<(), Fail> {
    let alloc = rt.alloc();
    let text = printed(alloc, causes(alloc)?, Listed::new(alloc))?;
    assert_eq!(rt;
        text.as_slice(),
        b"round 2 at 4294967295 workers 16 buckets 256\n0 3.7 drop malformed short\n1 3.7 drop malformed version\n2 3.7 drop malformed headerlength\n3 3.7 drop malformed totallength\n4 3.7 drop malformed headersum\n5 3.7 drop malformed l4short\n6 3.7 refused exists\n7 3.7 refused noservice\n8 3.7 refused nodest\n9 3.7 refused thresholds\n10 3.7 refused running\n11 3.7 refused notrunning\n12 3.7 learn accepted\n13 3.7 learn off\n14 3.7 learn otherid\n15 3.7 learn v6\n16 3.7 learn badproto\n17 3.7 learn badstate\n18 3.7 learn badmethod\n19 3.7 badsync short\n20 3.7 badsync version\n21 3.7 badsync size\n22 3.7 badsync recordshort\n23 3.7 badsync recordversion\n24 3.7 badsync options\n25 3.7 badsync count\n".as_slice()
    );
    Ok(())
}

#[test]
fn listings_end_with_end(rt: HostRuntime) -> Result<(), Fail> {
    let alloc = rt.alloc();
    let mut shown = Vec::new(alloc);
    shown.push(ShownText {
        kind: Shown::List,
        text: copied(alloc, b"x\n")?,
    })?;
    shown.push(ShownText {
        kind: Shown::Conns,
        text: copied(alloc, b"")?,
    })?;
    shown.push(ShownText {
        kind: Shown::Save,
        text: copied(alloc, b"y\nz\n")?,
    })?;
    shown.push(ShownText {
        kind: Shown::IcmpIn(copied(alloc, &[0x45])?),
        text: copied(alloc, b"pass\n")?,
    })?;
    shown.push(ShownText {
        kind: Shown::IcmpOut(copied(alloc, &[0x46])?),
        text: copied(alloc, b"pass\n")?,
    })?;
    let text = printed(alloc, Vec::new(alloc), Listed::from_vec(shown))?;
    assert_eq!(rt;
        text.as_slice(),
        b"round 2 at 4294967295 workers 16 buckets 256\nlist\nx\nend\nconns\nend\nsave\ny\nz\nend\nicmp in 45\npass\nend\nicmp out 46\npass\nend\n".as_slice()
    );
    Ok(())
}

#[test]
fn answers_to_errors(rt: HostRuntime) -> Result<(), Fail> {
    let alloc = rt.alloc();
    let to_server = IcmpAnswer::ToServer {
        to: Addr {
            number: 0xC0A8_0001,
        },
        bytes: copied(alloc, &[0x45, 0xff])?,
    };
    let to_client = IcmpAnswer::ToClient(copied(alloc, &[0xa0])?);
    let malformed = IcmpAnswer::Malformed(Malformed::HeaderSum);
    for (answer, line) in [
        (to_server, "fwd masq 192.168.0.1 45ff\n"),
        (to_client, "out a0\n"),
        (IcmpAnswer::Pass, "pass\n"),
        (IcmpAnswer::Gone, "drop gone\n"),
        (IcmpAnswer::BadSum, "drop icmpsum\n"),
        (malformed, "drop malformed headersum\n"),
    ] {
        let text = print_icmp_answer(alloc, &answer)?;
        assert_eq!(rt; text.as_slice(), line.as_bytes());
    }
    Ok(())
}
