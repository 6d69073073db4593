//! When a server is overloaded, and when no longer (ipvsadm(8), -x and -y).
ghost use Rattle.std.specs.Prelude.{◌≡◌};
ghost use Rattle.lvs_model.specs.Overload.{is_reached, is_relieved, overload_ended};

use lvs_types::DestSpec;

/// Whether so many connections reach the upper threshold, where there is one.
pub fn reaches(spec: &DestSpec, total: u64) -> bool
    ensures { result ≡ is_reached spec.now total }
{
    0 < spec.upper && u64::from(spec.upper) <= total
}

/// Whether so many connections are few enough.
fn relieves(spec: &DestSpec, total: u64) -> bool
    ensures { result ≡ is_relieved spec.now total }
{
    spec.upper == 0
        || (0 < spec.lower && total < u64::from(spec.lower))
        || (spec.lower == 0 && 0 < spec.upper && 4 * u128::from(total) < 3 * u128::from(spec.upper))
}

/// The overload after entries that named the server were ended, of which so many stay.
pub fn relieved(spec: &DestSpec, total: u64, before: bool) -> bool
    ensures { result ≡ overload_ended spec.now total before }
{
    if relieves(spec, total) { false } else { before }
}
