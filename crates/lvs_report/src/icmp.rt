//! The line of the answer to an ICMP error.
ghost use Rattle.std.specs.Prelude.{◌≡◌, ◌++◌, IfOk, OnOk};
ghost use Rattle.lvs_types.specs.declared.icmp.IcmpAnswer.TheVariants as answer;
ghost use Rattle.lvs_model.specs.IcmpErrors.{icmp_text};

use crate::names::malformed_name;
use lvs_text::{put, put_addr, put_hex};
use lvs_types::{Addr, Bytes, IcmpAnswer, Malformed, NoMemory};
use std::alloc::Global;

fn put_to_server(out: &mut Vec<u8>, to: Addr, bytes: &Bytes) -> Result<(), NoMemory>
    ensures { OnOk result (out.new.items ≡ out.old.items ++ icmp_text (answer.ToServer to bytes.now)) }
{
    put(out, b"fwd masq ")?;
    put_addr(out, to)?;
    put(out, b" ")?;
    put_hex(out, bytes.as_slice())?;
    put(out, b"\n")
}

fn put_to_client(out: &mut Vec<u8>, bytes: &Bytes) -> Result<(), NoMemory>
    ensures { OnOk result (out.new.items ≡ out.old.items ++ icmp_text (answer.ToClient bytes.now)) }
{
    put(out, b"out ")?;
    put_hex(out, bytes.as_slice())?;
    put(out, b"\n")
}

fn put_malformed(out: &mut Vec<u8>, cause: Malformed) -> Result<(), NoMemory>
    ensures { OnOk result (out.new.items ≡ out.old.items ++ icmp_text (answer.Malformed cause)) }
{
    put(out, b"drop malformed ")?;
    put(out, malformed_name(cause))?;
    put(out, b"\n")
}

fn put_answer(out: &mut Vec<u8>, answer: &IcmpAnswer) -> Result<(), NoMemory>
    ensures { OnOk result (out.new.items ≡ out.old.items ++ icmp_text answer.now) }
{
    match answer {
        IcmpAnswer::ToServer { to, bytes } => put_to_server(out, *to, bytes),
        IcmpAnswer::ToClient(bytes) => put_to_client(out, bytes),
        IcmpAnswer::Pass => put(out, b"pass\n"),
        IcmpAnswer::Gone => put(out, b"drop gone\n"),
        IcmpAnswer::BadSum => put(out, b"drop icmpsum\n"),
        IcmpAnswer::Malformed(cause) => put_malformed(out, *cause),
    }
}

/// The line of the answer to an ICMP error, as it stands in a report: `fwd masq ADDR HEX`,
/// `out HEX`, `pass`, `drop gone`, `drop icmpsum` or `drop malformed CAUSE`, with its line feed
/// (this project's profile).
pub fn print_icmp_answer(alloc: Global, answer: &IcmpAnswer) -> Result<Bytes, NoMemory>
    ensures { IfOk result (λ line. line ≡ icmp_text answer.now) }
{
    let mut out = Vec::new(alloc);
    put_answer(&mut out, answer)?;
    Ok(Bytes::from_vec(out))
}
