//! A text cut into lines, and a line into words.
use crate::{cut_line, is_readable, is_skipped, without_return, words_of};
use std::test::Fail;

#[test]
fn cuts_a_text_at_its_first_line_feed(rt: HostRuntime) -> Result<(), Fail> {
    let line = b"at 1\r".as_slice();
    let rest = b"\nlist".as_slice();
    assert_eq!(rt; cut_line(b"at 1\r\n\nlist"), Some((line, rest)));
    assert_eq!(rt; cut_line(rest), Some((b"".as_slice(), b"list".as_slice())));
    assert_eq!(rt; cut_line(b"list"), None);
    assert_eq!(rt; without_return(line), b"at 1".as_slice());
    assert_eq!(rt; without_return(rest), rest);
    Ok(())
}

#[test]
fn takes_words_between_spaces_and_tabs(rt: HostRuntime) -> Result<(), Fail> {
    let words = words_of(rt.alloc(), b"  in\t0  4500 ")?;
    assert_eq!(rt;
        words.as_slice(),
        [b"in".as_slice(), b"0".as_slice(), b"4500".as_slice()].as_slice()
    );
    assert!(rt; !is_skipped(&words));
    assert!(rt; is_skipped(&words_of(rt.alloc(), b" \t")?));
    assert!(rt; is_skipped(&words_of(rt.alloc(), b" # in 0")?));
    Ok(())
}

#[test]
fn tells_lines_of_printable_bytes(rt: HostRuntime) -> Result<(), Fail> {
    assert!(rt; is_readable(b"in\t0 ~"));
    assert!(rt; !is_readable(b"in \x7f"));
    assert!(rt; !is_readable(b"in \r"));
    Ok(())
}
