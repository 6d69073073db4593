//! The kinds of lines, by their first word.
ghost use Rattle.std.specs.Prelude.{◌≡◌, bytes_eq};
ghost use Rattle.lvs_model.specs.Scripts.{line_name, line_named};

use lvs_model::script::LineName;

/// All kinds.
const LINE_NAMES: [LineName; 11] = [
    LineName::Local,
    LineName::At,
    LineName::Ipvs,
    LineName::Sysctl,
    LineName::Incoming,
    LineName::Outgoing,
    LineName::Sync,
    LineName::List,
    LineName::Conns,
    LineName::Save,
    LineName::Icmp,
];

/// The first word of each kind.
fn line_name(kind: LineName) -> &'static [u8]
    ensures { result.now ≡ line_name kind }
{
    match kind {
        LineName::Local => b"local",
        LineName::At => b"at",
        LineName::Ipvs => b"ipvs",
        LineName::Sysctl => b"sysctl",
        LineName::Incoming => b"in",
        LineName::Outgoing => b"out",
        LineName::Sync => b"sync",
        LineName::List => b"list",
        LineName::Conns => b"conns",
        LineName::Save => b"save",
        LineName::Icmp => b"icmp",
    }
}

fn is_kind(kind: LineName, word: &[u8]) -> bool
    ensures { result ≡ bytes_eq word.now (line_name kind) }
{
    word == line_name(kind)
}

/// The kind of line that a first word names.
pub(crate) fn line_named(word: &[u8]) -> Option<LineName>
    ensures { result ≡ line_named word.now }
{
    LINE_NAMES.iter().copied().find(|kind| is_kind(*kind, word))
}
