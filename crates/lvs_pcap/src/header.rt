//! The header of a capture file.
ghost use Rattle.std.specs.Prelude.{◌≡◌, ◌≤◌, length};
ghost use Rattle.lvs_model.specs.CaptureFiles.{order_of as spec_order_of, is_version as spec_is_version, is_link as spec_is_link, link_of as spec_link_of, header_of, checked_header};

use crate::fields::{number, word};
use crate::places::{
    ETHERNET, FILE_HEADER, LINK, MAGIC, MAGIC_NUMBER, MAJOR, MAJOR_VERSION, MINOR, MINOR_VERSION,
    RAW_IP, SWAPPED_MAGIC,
};
use lvs_model::capture::{BadCapture, Endianness};
use lvs_types::CaptureCause;

/// A refusal of the file header.
fn refused(cause: CaptureCause) -> BadCapture
    ensures { result ≡ record { at = 0; cause = cause } }
{
    BadCapture { at: 0, cause }
}

/// The byte order that the magic tells.
fn order_of(bytes: &[u8]) -> Option<Endianness>
    requires { 24 ≤ length bytes.now }
    ensures { result ≡ spec_order_of bytes.now }
{
    match number(Endianness::Big, bytes, MAGIC) {
        MAGIC_NUMBER => Some(Endianness::Big),
        SWAPPED_MAGIC => Some(Endianness::Little),
        _ => None,
    }
}

fn is_version(order: Endianness, bytes: &[u8]) -> bool
    requires { 24 ≤ length bytes.now }
    ensures { result ≡ spec_is_version order bytes.now }
{
    word(order, bytes, MAJOR) == MAJOR_VERSION && word(order, bytes, MINOR) == MINOR_VERSION
}

/// The link type of a file.
pub(crate) fn link_of(order: Endianness, bytes: &[u8]) -> u32
    requires { 24 ≤ length bytes.now }
    ensures { result ≡ spec_link_of order bytes.now }
{
    number(order, bytes, LINK)
}

fn is_link(link: u32) -> bool
    ensures { result ≡ spec_is_link link }
{
    link == ETHERNET || link == RAW_IP
}

/// The byte order of a file, or the first cause for which its header is none: Short, Magic, Version,
/// Link.
pub(crate) fn read_header(bytes: &[u8]) -> Result<Endianness, BadCapture>
    ensures { result ≡ header_of bytes.now }
{
    if bytes.len() < FILE_HEADER {
        return Err(refused(CaptureCause::Short));
    }
    let Some(order) = order_of(bytes) else {
        return Err(refused(CaptureCause::Magic));
    };
    if !is_version(order, bytes) {
        return Err(refused(CaptureCause::Version));
    }
    if !is_link(link_of(order, bytes)) {
        return Err(refused(CaptureCause::Link));
    }
    Ok(order)
}
