//! How long entries are kept, and which are active.
ghost use Rattle.std.specs.Prelude.{◌≡◌};
ghost use Rattle.lvs_model.specs.Timeouts.{timeout_of as timeout_by, is_active as is_active_by};

use lvs_types::{Settings, TcpState};

/// The timeout of an entry in this state, in seconds; without a state it is UDP's.
#[rattlefmt::skip]
pub fn timeout_of(settings: &Settings, state: Option<TcpState>) -> u32
    ensures { result ≡ timeout_by settings.now state }
{
    match state {
        Some(TcpState::None0)       => 2,
        Some(TcpState::Established) => settings.established,
        Some(TcpState::SynSent)     => 120,
        Some(TcpState::SynRecv)     => 60,
        Some(TcpState::FinWait)     => settings.fin_wait,
        Some(TcpState::TimeWait)    => 120,
        Some(TcpState::Close)       => 10,
        Some(TcpState::CloseWait)   => 60,
        Some(TcpState::LastAck)     => 30,
        Some(TcpState::Listen)      => 120,
        Some(TcpState::SynAck)      => 120,
        None                        => settings.udp,
    }
}

/// Whether an entry in this state counts as an active connection of its server (ipvsadm(8),
/// ActiveConn): only an established one does.
pub fn is_active(state: Option<TcpState>) -> bool
    ensures { result ≡ is_active_by state }
{
    state == Some(TcpState::Established)
}
