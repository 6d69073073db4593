//! Whether an option was given before.
ghost use Rattle.std.specs.Prelude.{◌≡◌};
ghost use Rattle.lvs_model.specs.AdminWords.{is_tcp_service, is_udp_service, is_mark, has_service, has_method, is_service_option, is_method_option, is_given, is_second};

use lvs_model::admin::{GivenService, OptionName, WordsRead};
use lvs_types::{Method, Proto, ServiceKey};

/// Whether the service was given by `-t`.
fn is_tcp_service(service: Option<GivenService>) -> bool
    ensures { result ≡ has_service is_tcp_service service }
{
    match service {
        None => false,
        Some(service) => matches!(
            service.key,
            ServiceKey::Net {
                proto: Proto::Tcp,
                ..
            }
        ),
    }
}

/// Whether the service was given by `-u`.
fn is_udp_service(service: Option<GivenService>) -> bool
    ensures { result ≡ has_service is_udp_service service }
{
    match service {
        None => false,
        Some(service) => matches!(
            service.key,
            ServiceKey::Net {
                proto: Proto::Udp,
                ..
            }
        ),
    }
}

/// Whether the service was given by `-f`.
fn is_mark(service: Option<GivenService>) -> bool
    ensures { result ≡ has_service is_mark service }
{
    match service {
        None => false,
        Some(service) => matches!(service.key, ServiceKey::Mark(_)),
    }
}

/// Whether this method was given.
fn has_method(method: Method, given: Option<Method>) -> bool
    ensures { result ≡ has_method method given }
{
    given == Some(method)
}

fn is_service_option(option: OptionName) -> bool
    ensures { result ≡ is_service_option option }
{
    matches!(
        option,
        OptionName::TcpService | OptionName::UdpService | OptionName::FwmarkService
    )
}

fn is_method_option(option: OptionName) -> bool
    ensures { result ≡ is_method_option option }
{
    matches!(
        option,
        OptionName::Gatewaying | OptionName::Ipip | OptionName::Masquerading
    )
}

/// Whether an option was given before.
pub(crate) fn is_given(read: &WordsRead, option: OptionName) -> bool
    ensures { result ≡ is_given read.now option }
{
    match option {
        OptionName::TcpService => is_tcp_service(read.service),
        OptionName::UdpService => is_udp_service(read.service),
        OptionName::FwmarkService => is_mark(read.service),
        OptionName::Scheduling => read.scheduler.is_some(),
        OptionName::Persistent => read.persist.is_some(),
        OptionName::Netmask => read.netmask_at.is_some(),
        OptionName::OnePacket => read.one_packet_at.is_some(),
        OptionName::RealServer => read.server.is_some(),
        OptionName::Gatewaying => has_method(Method::Direct, read.method),
        OptionName::Ipip => has_method(Method::Tunnel, read.method),
        OptionName::Masquerading => has_method(Method::Masq, read.method),
        OptionName::Weight => read.weight.is_some(),
        OptionName::UpperThreshold => read.upper.is_some(),
        OptionName::LowerThreshold => read.lower.is_some(),
        OptionName::Numeric => read.numeric,
        OptionName::Connection => read.connection,
        OptionName::SyncId => read.sync_id.is_some(),
        OptionName::McastInterface => read.interface,
    }
}

/// Whether an option is a second service option or a second method.
pub(crate) fn is_second(read: &WordsRead, option: OptionName) -> bool
    ensures { result ≡ is_second read.now option }
{
    (is_service_option(option) && read.service.is_some())
        || (is_method_option(option) && read.method.is_some())
}
