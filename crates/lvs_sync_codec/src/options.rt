//! The options of a record of version 1: a type, a length above 0 and that many bytes, each.
ghost use Rattle.std.specs.Prelude.{◌≡◌, ◌<◌, false, length, MatchOption, IfSome};
ghost use Rattle.lvs_model.specs.MessageReading.{are_options};

use crate::fields::rest_from;

/// A type and a length.
const FRONT: usize = 2;

/// Whether the bytes after the fields of a record are options, whose contents aren't looked at.
pub(crate) fn are_options(bytes: &[u8]) -> bool
    ensures { result ≡ are_options 0 bytes.now }
{
    let mut rest = bytes;
    while !rest.is_empty() {
        let Some(after) = after_option(rest) else {
            return false;
        };
        rest = after;
    }
    true
}

/// The bytes after the first option; none where it is cut off, or its length is 0.
fn after_option(bytes: &[u8]) -> Option<&[u8]>
    requires { 0 < length bytes.now }
    ensures rest { MatchOption result (are_options 0 bytes.now ≡ false) (λ rest. are_options 0 bytes.now ≡ are_options 0 rest.now) }
    ensures shorter { IfSome result (λ rest. length rest.now < length bytes.now) }
{
    if bytes.len() < FRONT {
        return None;
    }
    let size = usize::from(bytes[1]);
    if size == 0 || bytes.len() < size + FRONT {
        return None;
    }
    Some(rest_from(bytes, size + FRONT))
}
