//! The sides between which an answer goes, and the entry that it belongs to.
ghost use Rattle.std.specs.Prelude.{◌≡◌, Some};
ghost use Rattle.std.specs.Option.{option_copied};
ghost use Rattle.lvs_model.specs.Lookups.{is_reply_of, reply_entry};
ghost use Rattle.lvs_keys.specs.Least.{older};

use lvs_types::{Addr, Entry, Method, Proto};

/// The two sides of a masqueraded connection: the real server's and the client's. Ports are in host
/// order.
#[derive(Clone, Copy, Debug, PartialEq, Eq)]
pub struct ReplySides {
    pub proto: Proto,
    /// The real server's address.
    pub daddr: Addr,
    /// The real server's port.
    pub dport: u16,
    /// The client's address.
    pub caddr: Addr,
    /// The client's port.
    pub cport: u16,
}

impl ReplySides {
    /// Whether the entry is a masqueraded connection between the two sides.
    pub fn are_of(&self, e: &Entry) -> bool
        ensures { result ≡ is_reply_of self.now.proto self.now.daddr self.now.dport self.now.caddr self.now.cport e.now }
    {
        e.method == Method::Masq
            && e.key.proto == self.proto
            && e.daddr == self.daddr
            && e.dport == self.dport
            && e.key.caddr == self.caddr
            && e.key.cport == self.cport
    }
}

/// Of the least one so far and the next one that with the lower id, the first one where they agree.
pub fn lower<'a>(least: Option<&'a Entry>, next: &'a Entry) -> &'a Entry
    ensures { result.now ≡ older (option_copied least.entry) next.now }
{
    match least {
        None => next,
        Some(e) => { if e.id <= next.id { e } else { next } }
    }
}

/// The entry of a reply: of the masqueraded connections between the two sides the one of least id.
#[tactic(auto, using(crate::proofs::Least::lead_more))]
pub fn find_reply<'a>(entries: &'a [Entry], sides: &ReplySides) -> Option<&'a Entry>
    ensures { option_copied result ≡ reply_entry sides.now.proto sides.now.daddr sides.now.dport sides.now.caddr sides.now.cport entries.now }
{
    let mut least = None;
    for e in entries {
        if sides.are_of(e) {
            least = Some(lower(least, e));
        }
    }
    least
}
