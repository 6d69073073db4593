//! The greatest scripts, and one more.
use crate::{ScriptRefused, read_script};
use lvs_types::ScriptCause;
use std::alloc::{AllocError, Global};
use std::test::Fail;

/// A text, a line so many times, and a text.
fn text_of(
    alloc: Global,
    head: &str,
    line: &str,
    count: usize,
    tail: &str,
) -> Result<Vec<u8>, AllocError> {
    let mut text = head.as_bytes().to_vec(alloc)?;
    text.extend_from_slice(line.repeat(alloc, count)?.as_bytes())?;
    text.extend_from_slice(tail.as_bytes())?;
    Ok(text)
}

/// What is refused in a text.
fn outcome(alloc: Global, text: &[u8]) -> Result<(), ScriptRefused> {
    read_script(alloc, text)?;
    Ok(())
}

/// A refusal.
fn refused(line: u64, cause: ScriptCause) -> Result<(), ScriptRefused> {
    Err(ScriptRefused::Refused { line, cause })
}

/// A sync message of two records, which counts as two items.
fn two_records() -> &'static str {
    "sync 0007005002010000000600240000000000019c4000501f900000000000000384ac1000090a000001c0a80001000600240000000000019c4000501f900000000000000384ac1000090a000001c0a80001\n"
}

#[test]
fn limits_rounds(rt: HostRuntime) -> Result<(), Fail> {
    use ScriptCause::*;
    let alloc = rt.alloc();
    let text = text_of(alloc, "", "at 1\n", 4_096, "")?;
    assert_eq!(rt; outcome(alloc, &text), Ok(()));
    for (tail, cause) in [
        ("at 1", TooManyRounds),
        ("at 4294967295\n", TooManyRounds),
        ("at 1\nx\n", TooManyRounds),
        ("at 0", TimeBack),
        ("at x", BadNumber),
    ] {
        let text = text_of(alloc, "", "at 1\n", 4_096, tail)?;
        assert_eq!(rt; outcome(alloc, &text), refused(4_097, cause), "at {tail}");
    }
    Ok(())
}

/// A round of 1,048,575 items, and then a text.
fn almost_full(alloc: Global, tail: &str) -> Result<Vec<u8>, AllocError> {
    text_of(alloc, "at 0\n", "in 0 45\n", 1_048_575, tail)
}

#[test]
fn limits_items(rt: HostRuntime) -> Result<(), Fail> {
    use ScriptCause::*;
    let alloc = rt.alloc();
    let text = almost_full(alloc, "in 0 45\nlist\nipvs -L\nat 0\n")?;
    assert_eq!(rt; outcome(alloc, &text), Ok(()));
    let text = almost_full(alloc, "sync 00\nat 0\nipvs -C")?;
    assert_eq!(rt; outcome(alloc, &text), refused(1_048_579, TooManyItems));
    let text = almost_full(alloc, two_records())?;
    assert_eq!(rt; outcome(alloc, &text), refused(1_048_577, TooManyItems));
    Ok(())
}
