//! Which packets make a connection to be sent.
ghost use Rattle.std.specs.Prelude.{◌≡◌};
ghost use Rattle.lvs_model.specs.SyncRules.{due_for_sync, is_synced_state, is_count_due, same_state};

use lvs_types::{Entry, Proto, Settings, TcpState};

/// Whether a packet makes an entry to be sent, by the state before the packet (`None0` for a new
/// TCP entry) and the entry after it.
///
/// An entry of TCP is sent in a synchronised state where the state changed, or where its packets
/// have reached `sync_threshold` (the Linux ipvs-sysctl document). Whether a master daemon runs is
/// the caller's to look at.
pub fn due_for_sync(settings: &Settings, old: Option<TcpState>, entry: &Entry) -> bool
    ensures { result ≡ due_for_sync settings.now old entry.now }
{
    entry.key.proto == Proto::Tcp
        && is_synced(entry.state)
        && (!is_same(old, entry.state) || is_count(settings, entry.packets))
}

fn is_synced(state: Option<TcpState>) -> bool
    ensures { result ≡ is_synced_state state }
{
    matches!(
        state,
        Some(
            TcpState::Established
                | TcpState::FinWait
                | TcpState::TimeWait
                | TcpState::Close
                | TcpState::CloseWait
        )
    )
}

fn is_same(old: Option<TcpState>, new: Option<TcpState>) -> bool
    ensures { result ≡ same_state old new }
{
    old == new
}

/// A period of 0 sends at the threshold alone, and not again.
fn is_count(settings: &Settings, packets: u64) -> bool
    ensures { result ≡ is_count_due settings.now packets }
{
    let threshold = u64::from(settings.threshold);
    if settings.period == 0 {
        packets == threshold
    } else {
        packets % u64::from(settings.period) == threshold
    }
}
