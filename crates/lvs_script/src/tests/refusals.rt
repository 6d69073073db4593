//! Lines that are refused, with their number and their cause.
use crate::{ScriptRefused, read_script};
use lvs_types::{ScriptCause, WordsCause};

#[test]
#[rattlefmt::skip]
fn refuses_lines(rt: HostRuntime) {
    use ScriptCause::*;
    let missing = BadWords { at: 0, cause: WordsCause::Missing };
    let zero_port = BadWords { at: 2, cause: WordsCause::ZeroPort };
    let unknown_option = BadWords { at: 1, cause: WordsCause::UnknownOption };
    for (text, line, cause) in [
        // a byte that isn't printable, or an unknown first word
        ("x", 1, UnknownLine),
        ("at 0\r", 1, UnknownLine),
        ("at 0\r\r\n", 1, UnknownLine),
        ("at 0\nlist \u{7f}\n", 2, UnknownLine),
        ("at 0\nlist \0\n", 2, UnknownLine),
        ("at 0\nlist \u{e9}\n", 2, UnknownLine),
        ("at 0\nLIST\n", 2, UnknownLine),
        ("at 0\nIcmp in 45\n", 2, UnknownLine),
        ("check\n", 1, UnknownLine),
        // a place
        ("at 0\nlocal 10.0.0.1\n", 2, LocalPlace),
        ("local 1.2.3.4\nlocal 1.2.3.4\n", 2, LocalPlace),
        ("at 0\n\nlocal\n", 3, LocalPlace),
        ("\n# in\nin 0 45\n", 3, BeforeAt),
        ("in\n", 1, BeforeAt),
        ("icmp\n", 1, BeforeAt),
        ("local 1.2.3.4\nlist\n", 2, BeforeAt),
        // the number of words
        ("local 1.2.3.4 5\n", 1, WordCount),
        ("local\n", 1, WordCount),
        ("at\n", 1, WordCount),
        ("at x 0\n", 1, WordCount),
        ("at 0\nin 0\n", 2, WordCount),
        ("at 0\nin x 4 5\n", 2, WordCount),
        ("at 0\nsave now\n", 2, WordCount),
        ("at 0\nicmp 45\n", 2, WordCount),
        ("at 0\nicmp in 45 45\n", 2, WordCount),
        ("at 0\nicmp IN 4\n", 2, WordCount),
        // a word
        ("local 1.2.3\n", 1, BadAddress),
        ("local 256.0.0.0\n", 1, BadAddress),
        ("local 1.2.3.4:80\n", 1, BadAddress),
        ("at 4294967296\n", 1, BadNumber),
        ("at 00000000000\n", 1, BadNumber),
        ("at 5\nat -4\n", 2, BadNumber),
        ("at 0\nin -1 4500\n", 2, BadNumber),
        ("at 0\nin 4294967296 4\n", 2, BadNumber),
        ("at 0\nin 0 450\n", 2, BadHex),
        ("at 0\nout 450\n", 2, BadHex),
        ("at 0\nsync 4g\n", 2, BadHex),
        ("at 0\nicmp in 4\n", 2, BadHex),
        ("at 0\nicmp out 4g\n", 2, BadHex),
        ("at 0\nipvs\n", 2, missing),
        ("at 0\nipvs -A -t 10.0.0.1:0 -s rr\n", 2, zero_port),
        ("at 0\nipvs -Lz\n", 2, unknown_option),
        ("at 0\nsysctl\n", 2, BadSetting),
        ("at 0\nsysctl drop_entry 1\n", 2, BadSetting),
        ("at 0\nsysctl sloppy_tcp 1 2\n", 2, BadSetting),
        // a moment
        ("at 5\nat 4\n", 2, TimeBack),
        ("at 0\nat 1\nlist\nat 0\n", 4, TimeBack),
        ("at 4294967295\nat 4294967294\n", 2, TimeBack),
    ] {
        let refused = match read_script(rt.alloc(), text.as_bytes()) {
            Err(ScriptRefused::Refused { line, cause }) => Some((line, cause)),
            _ => None,
        };
        assert_eq!(rt; refused, Some((line, cause)), "at {text}");
    }
}
