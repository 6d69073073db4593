//! The words that stand for a service and for a server.
ghost use Rattle.std.specs.Prelude.{◌≡◌, ◌++◌, [], ◌∷◌, ◌^◌, ◌-◌, ◌≤◌, decimal, OnOk};
ghost use Rattle.lvs_model.specs.Listings.{mask_addr, method_word};
ghost use Rattle.lvs_tidy.specs.CommandWords.{key_option, key_value, persist_words, mask_words, one_packet_words, service_words, threshold_words, server_words};
ghost use Rattle.lvs_tidy.specs.ScriptTexts.{spaced};

use crate::words::{put_addr_word, put_endpoint_word, put_number_word, put_word};
use lvs_types::{Addr, DestSpec, Method, NoMemory, Proto, Service, ServiceKey};

/// Appends `-t ADDR:PORT`, `-u ADDR:PORT` or `-f MARK`.
pub(crate) fn put_key(out: &mut Vec<u8>, key: ServiceKey) -> Result<(), NoMemory>
    ensures { OnOk result (out.new.items ≡ out.old.items ++ spaced (key_option key ∷ key_value key ∷ [])) }
{
    match key {
        ServiceKey::Net {
            proto: Proto::Tcp,
            addr,
            port,
        } => {
            put_word(out, b"-t")?;
            put_endpoint_word(out, addr, port)
        }
        ServiceKey::Net {
            proto: Proto::Udp,
            addr,
            port,
        } => {
            put_word(out, b"-u")?;
            put_endpoint_word(out, addr, port)
        }
        ServiceKey::Mark(mark) => {
            put_word(out, b"-f")?;
            put_number_word(out, u64::from(mark))
        }
    }
}

/// How many addresses agree in so many leading bits, 2 to the power of the other bits.
fn block_size(bits: u8) -> u64
    ensures size { result ≡ 2 ^ (32 - bits) }
    ensures least { 1 ≤ result }
    ensures greatest { result ≤ 4294967296 }
{
    1 << 32u8.saturating_sub(bits)
}

/// The address of so many ones and then zeros.
fn mask_addr(bits: u8) -> Addr
    ensures { result ≡ mask_addr bits }
{
    Addr {
        number: (4_294_967_296 - block_size(bits)) as u32,
    }
}

fn put_persist(out: &mut Vec<u8>, persist: Option<u32>) -> Result<(), NoMemory>
    ensures { OnOk result (out.new.items ≡ out.old.items ++ spaced (persist_words persist)) }
{
    match persist {
        None => Ok(()),
        Some(seconds) => {
            put_word(out, b"-p")?;
            put_number_word(out, u64::from(seconds))
        }
    }
}

fn put_mask(out: &mut Vec<u8>, bits: u8) -> Result<(), NoMemory>
    ensures { OnOk result (out.new.items ≡ out.old.items ++ spaced (mask_words bits)) }
{
    if bits == 32 {
        Ok(())
    } else {
        put_word(out, b"-M")?;
        put_addr_word(out, mask_addr(bits))
    }
}

fn put_one_packet(out: &mut Vec<u8>, one_packet: bool) -> Result<(), NoMemory>
    ensures { OnOk result (out.new.items ≡ out.old.items ++ spaced (one_packet_words one_packet)) }
{
    if one_packet {
        put_word(out, b"-o")
    } else {
        Ok(())
    }
}

/// Appends the words behind `-A` and `-E`.
pub(crate) fn put_service(out: &mut Vec<u8>, service: &Service) -> Result<(), NoMemory>
    ensures { OnOk result (out.new.items ≡ out.old.items ++ spaced (service_words service.now)) }
{
    put_key(out, service.key)?;
    put_word(out, b"-s")?;
    put_word(out, service.scheduler.name())?;
    put_persist(out, service.persist)?;
    put_mask(out, service.mask_bits)?;
    put_one_packet(out, service.one_packet)
}

/// The option of a forwarding method.
fn method_word(method: Method) -> &'static [u8]
    ensures { result.now ≡ method_word method }
{
    match method {
        Method::Masq => b"-m",
        Method::Tunnel => b"-i",
        Method::Direct => b"-g",
    }
}

fn put_threshold(out: &mut Vec<u8>, option: &[u8], threshold: u32) -> Result<(), NoMemory>
    ensures { OnOk result (out.new.items ≡ out.old.items ++ spaced (threshold_words option.now threshold)) }
{
    if threshold == 0 {
        Ok(())
    } else {
        put_word(out, option)?;
        put_number_word(out, u64::from(threshold))
    }
}

/// Appends the words behind `-a` and `-e`.
pub(crate) fn put_server(
    out: &mut Vec<u8>,
    key: ServiceKey,
    server: &DestSpec,
) -> Result<(), NoMemory>
    ensures { OnOk result (out.new.items ≡ out.old.items ++ spaced (server_words key server.now)) }
{
    put_key(out, key)?;
    put_word(out, b"-r")?;
    put_endpoint_word(out, server.addr, server.port)?;
    put_word(out, method_word(server.method))?;
    put_word(out, b"-w")?;
    put_number_word(out, u64::from(server.weight))?;
    put_threshold(out, b"-x", server.upper)?;
    put_threshold(out, b"-y", server.lower)
}
