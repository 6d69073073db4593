//! The words of a sysctl.
ghost use Rattle.std.specs.Prelude.{◌≡◌, ◌≤◌, ◌<◌, ◌==◌, length, map, string_bytes, ok_or, bytes_eq};
ghost use Rattle.lvs_types.specs.declared.script.SettingCause.TheVariants.{UnknownName, BadValue};
ghost use Rattle.lvs_model.specs.Decimals.{number_between};
ghost use Rattle.lvs_model.specs.SysctlWords.{sysctl_name, without_prefix, sysctl_named, sysctl_of, one_value, threshold_of, two_values, setting_read, setting_of_words};

use crate::decimals::read_between;
use crate::tables::is_name;
use lvs_model::admin::SysctlName;
use lvs_types::{Setting, SettingCause};

/// The greatest value of most sysctls.
const MAX_VALUE: u32 = 2_147_483_647;

/// All sysctls.
const SYSCTLS: [SysctlName; 6] = [
    SysctlName::ExpireNodest,
    SysctlName::ExpireQuiescent,
    SysctlName::SloppyTcp,
    SysctlName::ReuseMode,
    SysctlName::SyncThreshold,
    SysctlName::SyncVersion,
];

/// The names of the sysctls.
fn sysctl_name(sysctl: SysctlName) -> &'static [u8]
    ensures { result.now ≡ sysctl_name sysctl }
{
    match sysctl {
        SysctlName::ExpireNodest => b"expire_nodest_conn",
        SysctlName::ExpireQuiescent => b"expire_quiescent_template",
        SysctlName::SloppyTcp => b"sloppy_tcp",
        SysctlName::ReuseMode => b"conn_reuse_mode",
        SysctlName::SyncThreshold => b"sync_threshold",
        SysctlName::SyncVersion => b"sync_version",
    }
}

/// A name without the prefix, which may be left out.
fn without_prefix(word: &[u8]) -> &[u8]
    ensures { result.now ≡ without_prefix word.now }
{
    match word.strip_prefix(b"net.ipv4.vs.") {
        Some(name) => name,
        None => word,
    }
}

/// The sysctl that a name names, without the prefix.
fn named(name: &[u8]) -> Option<SysctlName>
    ensures { result ≡ sysctl_named name.now }
{
    SYSCTLS
        .iter()
        .copied()
        .find(|sysctl| is_name(sysctl_name(*sysctl), name))
}

/// The sysctl that the first word names.
fn sysctl_of(word: &[u8]) -> Result<SysctlName, SettingCause>
    ensures { result ≡ ok_or (sysctl_of word.now) UnknownName }
{
    named(without_prefix(word)).ok_or(SettingCause::UnknownName)
}

/// A value, up to a limit.
fn value(limit: u32, word: &[u8]) -> Result<u32, SettingCause>
    ensures { result ≡ ok_or (number_between 0 limit word.now) BadValue }
{
    read_between(0, limit, word).ok_or(SettingCause::BadValue)
}

/// A sysctl of one value.
fn one_value(sysctl: SysctlName, word: &[u8]) -> Result<Setting, SettingCause>
    ensures { result ≡ one_value sysctl word.now }
{
    match sysctl {
        SysctlName::ExpireNodest => Ok(Setting::ExpireNodest(value(MAX_VALUE, word)?)),
        SysctlName::ExpireQuiescent => Ok(Setting::ExpireQuiescent(value(MAX_VALUE, word)?)),
        SysctlName::SloppyTcp => Ok(Setting::SloppyTcp(value(MAX_VALUE, word)?)),
        SysctlName::ReuseMode => Ok(Setting::ReuseMode(value(1, word)?)),
        SysctlName::SyncThreshold => Err(SettingCause::BadValue),
        SysctlName::SyncVersion => Ok(Setting::SyncVersion(value(1, word)?)),
    }
}

/// A threshold, and a period that is 0 or above it.
fn threshold_of(threshold: u32, period: u32) -> Result<Setting, SettingCause>
    ensures { result ≡ threshold_of threshold period }
{
    if period == 0 || threshold < period {
        Ok(Setting::SyncThreshold(threshold, period))
    } else {
        Err(SettingCause::BadValue)
    }
}

/// A sysctl of two values.
fn two_values(sysctl: SysctlName, first: &[u8], second: &[u8]) -> Result<Setting, SettingCause>
    ensures { result ≡ two_values sysctl first.now second.now }
{
    match sysctl {
        SysctlName::SyncThreshold => {
            let threshold = value(MAX_VALUE, first)?;
            let period = value(MAX_VALUE, second)?;
            threshold_of(threshold, period)
        }
        _ => Err(SettingCause::BadValue),
    }
}

/// A sysctl with its values.
fn read_value_slices(sysctl: SysctlName, values: &[&[u8]]) -> Result<Setting, SettingCause>
    ensures { result ≡ setting_read sysctl (map (λ value. value.now) values.now) }
{
    match values {
        [value] => one_value(sysctl, value),
        [first, second] => two_values(sysctl, first, second),
        _ => Err(SettingCause::BadValue),
    }
}

/// A sysctl with its values.
fn read_values(sysctl: SysctlName, values: &[String]) -> Result<Setting, SettingCause>
    ensures { result ≡ setting_read sysctl (map string_bytes values.now) }
{
    match values {
        [value] => one_value(sysctl, value.as_bytes()),
        [first, second] => two_values(sysctl, first.as_bytes(), second.as_bytes()),
        _ => Err(SettingCause::BadValue),
    }
}

/// What the words of a sysctl mean, as slices of the input: its name, with or without
/// `net.ipv4.vs.`, and its values (the Linux ipvs-sysctl document). It takes no memory.
pub fn read_setting_slices(words: &[&[u8]]) -> Result<Setting, SettingCause>
    ensures { result ≡ setting_of_words (map (λ word. word.now) words.now) }
{
    let [name, values @ ..] = words else {
        return Err(SettingCause::UnknownName);
    };
    read_value_slices(sysctl_of(name)?, values)
}

/// What the words of a sysctl mean: its name, with or without `net.ipv4.vs.`, and its values
/// (the Linux ipvs-sysctl document). It takes no memory.
pub fn read_setting(words: &[String]) -> Result<Setting, SettingCause>
    ensures { result ≡ setting_of_words (map string_bytes words.now) }
{
    let [name, values @ ..] = words else {
        return Err(SettingCause::UnknownName);
    };
    read_values(sysctl_of(name.as_bytes())?, values)
}
