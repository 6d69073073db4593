//! The names of variants in a report.
ghost use Rattle.std.specs.Prelude.{◌≡◌};
ghost use Rattle.lvs_model.specs.Report.{method_text, malformed_text, refused_text, learnt_text, bad_sync_text};

use lvs_types::{BadSync, EditRefused, Learnt, Malformed, Method};

pub(crate) fn method_name(method: Method) -> &'static [u8]
    ensures { result.now ≡ method_text method }
{
    match method {
        Method::Masq => b"masq",
        Method::Tunnel => b"tunnel",
        Method::Direct => b"direct",
    }
}

pub(crate) fn malformed_name(cause: Malformed) -> &'static [u8]
    ensures { result.now ≡ malformed_text cause }
{
    match cause {
        Malformed::Short => b"short",
        Malformed::Version => b"version",
        Malformed::HeaderLength => b"headerlength",
        Malformed::TotalLength => b"totallength",
        Malformed::HeaderSum => b"headersum",
        Malformed::L4Short => b"l4short",
    }
}

pub(crate) fn refused_name(cause: EditRefused) -> &'static [u8]
    ensures { result.now ≡ refused_text cause }
{
    match cause {
        EditRefused::Exists => b"exists",
        EditRefused::NoService => b"noservice",
        EditRefused::NoDest => b"nodest",
        EditRefused::Thresholds => b"thresholds",
        EditRefused::Running => b"running",
        EditRefused::NotRunning => b"notrunning",
    }
}

pub(crate) fn learnt_name(answer: Learnt) -> &'static [u8]
    ensures { result.now ≡ learnt_text answer }
{
    match answer {
        Learnt::Accepted => b"accepted",
        Learnt::Off => b"off",
        Learnt::OtherId => b"otherid",
        Learnt::V6 => b"v6",
        Learnt::BadProto => b"badproto",
        Learnt::BadState => b"badstate",
        Learnt::BadMethod => b"badmethod",
    }
}

pub(crate) fn bad_sync_name(cause: BadSync) -> &'static [u8]
    ensures { result.now ≡ bad_sync_text cause }
{
    match cause {
        BadSync::Short => b"short",
        BadSync::Version => b"version",
        BadSync::Size => b"size",
        BadSync::RecordShort => b"recordshort",
        BadSync::RecordVersion => b"recordversion",
        BadSync::Options => b"options",
        BadSync::Count => b"count",
    }
}
