//! The values of options, or the refused word.
ghost use Rattle.std.specs.Prelude.{◌≡◌, ◌≤◌, bytes_eq};
ghost use Rattle.lvs_types.specs.declared.script.WordsCause.TheVariants as cause;
ghost use Rattle.lvs_types.specs.Schedulers.{scheduler_named};
ghost use Rattle.lvs_model.specs.Refusals.{refused, needed};
ghost use Rattle.lvs_model.specs.Decimals.{number_between, endpoint_of, mask_of};
ghost use Rattle.lvs_model.specs.AdminWords.{role_of};

use crate::decimals::{read_between, read_endpoint, read_mask};
use crate::refused::bad;
use crate::tables::is_name;
use lvs_model::admin::{BadWord, DaemonRole, GivenEndpoint};
use lvs_types::{Scheduler, WordsCause};

/// A number of 1 to 10 digits.
pub(crate) fn number(at: usize, least: u32, limit: u32, word: &[u8]) -> Result<u32, BadWord>
    ensures { result ≡ needed at cause.BadNumber (number_between least limit word.now) }
{
    read_between(least, limit, word).ok_or(bad(at, WordsCause::BadNumber))
}

/// A sync id, 0 to 255.
pub(crate) fn sync_id(at: usize, word: &[u8]) -> Result<u8, BadWord>
    ensures { result ≡ needed at cause.BadNumber (number_between 0 255 word.now) }
{
    match read_between(0, 255, word) {
        None => Err(bad(at, WordsCause::BadNumber)),
        Some(id) => Ok(id as u8),
    }
}

/// ADDR or ADDR:PORT.
pub(crate) fn endpoint(at: usize, word: &[u8]) -> Result<GivenEndpoint, BadWord>
    ensures { result ≡ needed at cause.BadAddress (endpoint_of word.now) }
{
    read_endpoint(word).ok_or(bad(at, WordsCause::BadAddress))
}

/// How many ones a mask has.
pub(crate) fn mask(at: usize, word: &[u8]) -> Result<u8, BadWord>
    ensures { result ≡ needed at cause.BadAddress (mask_of word.now) }
{
    read_mask(word).ok_or(bad(at, WordsCause::BadAddress))
}

/// The name of a scheduler.
pub(crate) fn scheduler(at: usize, word: &[u8]) -> Result<Scheduler, BadWord>
    ensures { result ≡ needed at cause.BadScheduler (scheduler_named word.now) }
{
    Scheduler::named(word).ok_or(bad(at, WordsCause::BadScheduler))
}

/// `master` or `backup`.
fn role_of(word: &[u8]) -> Option<DaemonRole>
    ensures { result ≡ role_of word.now }
{
    if is_name(b"master", word) {
        Some(DaemonRole::Master)
    } else if is_name(b"backup", word) {
        Some(DaemonRole::Backup)
    } else {
        None
    }
}

/// `master` or `backup`.
pub(crate) fn role(at: usize, word: &[u8]) -> Result<DaemonRole, BadWord>
    ensures { result ≡ needed at cause.UnknownOption (role_of word.now) }
{
    role_of(word).ok_or(bad(at, WordsCause::UnknownOption))
}
