//! What a line tells of a service or a server only where it isn't the default.
ghost use Rattle.std.specs.Prelude.{◌≡◌, ◌++◌, ◌^◌, ◌-◌, ◌≤◌, OnOk};
ghost use Rattle.lvs_model.specs.Listings.{mask_addr, mask_text, persist_text, flag_text, options_text, threshold_text};

use lvs_text::{put, put_addr, put_number};
use lvs_types::{Addr, NoMemory, Service};

/// How many addresses agree in so many leading bits, 2 to the power of the other bits.
fn block_size(bits: u8) -> u64
    ensures size { result ≡ 2 ^ (32 - bits) }
    ensures least { 1 ≤ result }
    ensures greatest { result ≤ 4294967296 }
{
    1 << 32u8.saturating_sub(bits)
}

/// The address of so many ones and then zeros.
fn mask_addr(bits: u8) -> Addr
    ensures { result ≡ mask_addr bits }
{
    Addr {
        number: (4_294_967_296 - block_size(bits)) as u32,
    }
}

/// Appends a word and a mask, unless it is 255.255.255.255.
#[tactic(auto, unfolding(lvs_model::specs::Listings::mask_text))]
fn put_mask(out: &mut Vec<u8>, word: &[u8], bits: u8) -> Result<(), NoMemory>
    ensures { OnOk result (out.new.items ≡ out.old.items ++ mask_text word.now bits) }
{
    let mask = mask_addr(bits);
    if mask.number == 0xFFFF_FFFF {
        Ok(())
    } else {
        put(out, word)?;
        put_addr(out, mask)
    }
}

/// Appends a word and the seconds of persistence, where there is one.
#[tactic(auto, unfolding(lvs_model::specs::Listings::persist_text))]
fn put_persist(out: &mut Vec<u8>, word: &[u8], persist: Option<u32>) -> Result<(), NoMemory>
    ensures { OnOk result (out.new.items ≡ out.old.items ++ persist_text word.now persist) }
{
    match persist {
        None => Ok(()),
        Some(seconds) => {
            put(out, word)?;
            put_number(out, u64::from(seconds))
        }
    }
}

/// Appends a word where a flag is set.
#[tactic(auto, unfolding(lvs_model::specs::Listings::flag_text))]
fn put_flag(out: &mut Vec<u8>, word: &[u8], flag: bool) -> Result<(), NoMemory>
    ensures { OnOk result (out.new.items ≡ out.old.items ++ flag_text word.now flag) }
{
    if flag { put(out, word) } else { Ok(()) }
}

/// Appends a word and a threshold, unless it is 0.
#[tactic(auto, unfolding(lvs_model::specs::Listings::threshold_text))]
pub(crate) fn put_threshold(out: &mut Vec<u8>, word: &[u8], threshold: u32) -> Result<(), NoMemory>
    ensures { OnOk result (out.new.items ≡ out.old.items ++ threshold_text word.now threshold) }
{
    if threshold == 0 {
        Ok(())
    } else {
        put(out, word)?;
        put_number(out, u64::from(threshold))
    }
}

/// Appends what isn't the default of a service, each with its word: persistence, mask and
/// one-packet scheduling.
#[tactic(auto, unfolding(lvs_model::specs::Listings::options_text))]
pub(crate) fn put_options(
    out: &mut Vec<u8>,
    persistence: &[u8],
    mask: &[u8],
    one_packet: &[u8],
    service: &Service,
) -> Result<(), NoMemory>
    ensures { OnOk result (out.new.items ≡ out.old.items ++ options_text persistence.now mask.now one_packet.now service.now) }
{
    put_persist(out, persistence, service.persist)?;
    put_mask(out, mask, service.mask_bits)?;
    put_flag(out, one_packet, service.one_packet)
}
