//! The names of variants in listings, and which server is of which service.
ghost use Rattle.std.specs.Prelude.{◌≡◌};
ghost use Rattle.lvs_model.specs.Same.{service_key_eq};
ghost use Rattle.lvs_model.specs.Lookups.{is_server_of};
ghost use Rattle.lvs_model.specs.Listings.{method_title, method_word, proto_title, state_title, code_title};

use lvs_types::{Dest, Method, Proto, ServiceKey, TcpState};

/// As `ipvsadm -L` names it.
pub(crate) fn method_title(method: Method) -> &'static [u8]
    ensures { result.now ≡ method_title method }
{
    match method {
        Method::Masq => b"Masq",
        Method::Tunnel => b"Tunnel",
        Method::Direct => b"Route",
    }
}

/// The option of ipvsadm(8).
pub(crate) fn method_word(method: Method) -> &'static [u8]
    ensures { result.now ≡ method_word method }
{
    match method {
        Method::Masq => b"-m",
        Method::Tunnel => b"-i",
        Method::Direct => b"-g",
    }
}

pub(crate) fn proto_title(proto: Proto) -> &'static [u8]
    ensures { result.now ≡ proto_title proto }
{
    match proto {
        Proto::Tcp => b"TCP",
        Proto::Udp => b"UDP",
    }
}

pub(crate) fn state_title(state: Option<TcpState>) -> &'static [u8]
    ensures { result.now ≡ state_title state }
{
    match state {
        None => b"UDP",
        Some(TcpState::None0) => b"NONE",
        Some(TcpState::Established) => b"ESTABLISHED",
        Some(TcpState::SynSent) => b"SYN_SENT",
        Some(TcpState::SynRecv) => b"SYN_RECV",
        Some(TcpState::FinWait) => b"FIN_WAIT",
        Some(TcpState::TimeWait) => b"TIME_WAIT",
        Some(TcpState::Close) => b"CLOSE",
        Some(TcpState::CloseWait) => b"CLOSE_WAIT",
        Some(TcpState::LastAck) => b"LAST_ACK",
        Some(TcpState::Listen) => b"LISTEN",
        Some(TcpState::SynAck) => b"SYNACK",
    }
}

/// The name of the code of a template's key.
pub(crate) fn code_title(code: u8) -> &'static [u8]
    ensures { result.now ≡ code_title code }
{
    match code {
        6 => b"TCP",
        17 => b"UDP",
        _ => b"IP",
    }
}

/// Whether a server stands in the service.
pub(crate) fn is_server_of(key: ServiceKey, server: &Dest) -> bool
    ensures { result ≡ is_server_of key server.now }
{
    server.live && server.service == key
}
