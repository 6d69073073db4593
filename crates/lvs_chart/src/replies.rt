//! The replies of a round by kind.

/// What became of a packet.
#[derive(Clone, Copy, Debug, PartialEq, Eq)]
pub enum ReplyKind {
    /// It went to a server.
    Forwarded,
    /// A server's answer went to its client.
    Outward,
    /// It isn't the director's.
    Passed,
    /// No server can take its connection.
    NoDestination,
    /// Its connection's server is no longer there.
    Gone,
    /// It is too long for a tunnel.
    TooLong,
    /// Its bytes aren't a packet.
    Malformed,
}

/// The kinds in the order of the picture, from the axis up.
pub(crate) const KINDS: [ReplyKind; 7] = [
    ReplyKind::Forwarded,
    ReplyKind::Outward,
    ReplyKind::Passed,
    ReplyKind::NoDestination,
    ReplyKind::Gone,
    ReplyKind::TooLong,
    ReplyKind::Malformed,
];

impl ReplyKind {
    /// The kind of a reply's text, None where it is no packet's.
    pub(crate) fn of_reply(reply: &[u8]) -> Option<ReplyKind> {
        match reply {
            [b'f', b'w', b'd', b' ', ..] => Some(ReplyKind::Forwarded),
            [b'o', b'u', b't', b' ', ..] => Some(ReplyKind::Outward),
            b"pass" => Some(ReplyKind::Passed),
            b"drop nodest" => Some(ReplyKind::NoDestination),
            b"drop gone" => Some(ReplyKind::Gone),
            b"drop toolong" => Some(ReplyKind::TooLong),
            [b'd', b'r', b'o', b'p', b' ', b'm', ..] => Some(ReplyKind::Malformed),
            _ => None,
        }
    }

    /// What the legend calls it, and its classes in the picture's style.
    pub(crate) fn title(self) -> &'static str {
        match self {
            ReplyKind::Forwarded => "forwarded",
            ReplyKind::Outward => "outward",
            ReplyKind::Passed => "passed",
            ReplyKind::NoDestination => "drop nodest",
            ReplyKind::Gone => "drop gone",
            ReplyKind::TooLong => "drop toolong",
            ReplyKind::Malformed => "drop malformed",
        }
    }
}

/// How many replies of each kind there were; a count stays at the greatest number.
#[derive(Clone, Copy, Debug, Default, PartialEq, Eq)]
pub struct ReplyCounts {
    pub forwarded: u64,
    pub outward: u64,
    pub passed: u64,
    pub no_destination: u64,
    pub gone: u64,
    pub too_long: u64,
    pub malformed: u64,
}

impl ReplyCounts {
    /// One more reply of that kind.
    pub(crate) fn add(&mut self, kind: ReplyKind) {
        let count = match kind {
            ReplyKind::Forwarded => &mut self.forwarded,
            ReplyKind::Outward => &mut self.outward,
            ReplyKind::Passed => &mut self.passed,
            ReplyKind::NoDestination => &mut self.no_destination,
            ReplyKind::Gone => &mut self.gone,
            ReplyKind::TooLong => &mut self.too_long,
            ReplyKind::Malformed => &mut self.malformed,
        };
        *count = count.saturating_add(1);
    }

    /// How many of that kind there were.
    pub(crate) fn of(&self, kind: ReplyKind) -> u64 {
        match kind {
            ReplyKind::Forwarded => self.forwarded,
            ReplyKind::Outward => self.outward,
            ReplyKind::Passed => self.passed,
            ReplyKind::NoDestination => self.no_destination,
            ReplyKind::Gone => self.gone,
            ReplyKind::TooLong => self.too_long,
            ReplyKind::Malformed => self.malformed,
        }
    }

    /// How many replies there were.
    pub(crate) fn total(&self) -> u64 {
        let mut total = 0u64;
        for kind in KINDS {
            total = total.saturating_add(self.of(kind));
        }
        total
    }
}
