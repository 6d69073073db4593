//! Lines of sync messages, good and bad.
use crate::chance::Chance;
use crate::network::{client, client_port, port, server, server_port, virtual_addr};
use lvs_text::{put, put_hex};
use lvs_types::NoMemory;
use std::alloc::Global;

/// The bytes of a header of version 1, and of a record without options.
const NEW_HEADER: u16 = 8;

const NEW_RECORD: u16 = 36;

/// The same of version 0.
const OLD_HEADER: u16 = 4;

const OLD_RECORD: u16 = 24;

/// Protocols of records: mostly TCP, and some that none is of.
const CODES: [u8; 8] = [6, 6, 6, 6, 17, 17, 0, 50];

/// The second byte of flags: a template, whose record leaves the client's port out, and an entry that
/// counts as inactive.
const FLAGS: [u8; 6] = [0, 0, 0, 1, 0x10, 0x10];

/// Methods, and one that none is of.
const METHODS: [u8; 6] = [0, 0, 0, 2, 3, 1];

const STATES: [u16; 7] = [1, 1, 4, 5, 6, 7, 11];

/// Appends the client's, the virtual and the server's port of a record.
fn put_ports(out: &mut Vec<u8>, chance: &mut Chance) -> Result<(), NoMemory> {
    let cport = if chance.once_in(4) {
        0
    } else {
        client_port(chance)
    };
    out.extend_from_slice(&cport.to_be_bytes())?;
    out.extend_from_slice(&port(chance).to_be_bytes())?;
    out.extend_from_slice(&server_port(chance).to_be_bytes())?;
    Ok(())
}

/// Appends the client's, the virtual and the server's address of a record.
fn put_addrs(out: &mut Vec<u8>, chance: &mut Chance) -> Result<(), NoMemory> {
    out.extend_from_slice(&client(chance).number.to_be_bytes())?;
    out.extend_from_slice(&virtual_addr(chance).number.to_be_bytes())?;
    out.extend_from_slice(&server(chance).number.to_be_bytes())?;
    Ok(())
}

/// Appends a record of version 1.
fn put_new_record(out: &mut Vec<u8>, chance: &mut Chance) -> Result<(), NoMemory> {
    out.extend_from_slice(&[0, chance.pick(&CODES)])?;
    out.extend_from_slice(&NEW_RECORD.to_be_bytes())?;
    out.extend_from_slice(&[0, 0, chance.pick(&FLAGS), chance.pick(&METHODS)])?;
    out.extend_from_slice(&chance.pick(&STATES).to_be_bytes())?;
    put_ports(out, chance)?;
    out.extend_from_slice(&[0, 0, 0, chance.pick(&[0, 0, 1, 2])])?;
    out.extend_from_slice(&[0, 0, 0, chance.pick(&[0, 10, 60, 200])])?;
    put_addrs(out, chance)
}

/// Appends a record of version 0.
fn put_old_record(out: &mut Vec<u8>, chance: &mut Chance) -> Result<(), NoMemory> {
    out.extend_from_slice(&[0, chance.pick(&CODES)])?;
    put_ports(out, chance)?;
    put_addrs(out, chance)?;
    out.extend_from_slice(&[chance.pick(&FLAGS), chance.pick(&METHODS)])?;
    out.extend_from_slice(&chance.pick(&STATES).to_be_bytes())?;
    Ok(())
}

/// A message of version 1.
fn new_message(alloc: Global, chance: &mut Chance) -> Result<Vec<u8>, NoMemory> {
    let count = 1 + chance.below(3) as u16;
    let mut out = Vec::new(alloc);
    out.extend_from_slice(&[0, chance.below(3) as u8])?;
    out.extend_from_slice(&(NEW_HEADER + NEW_RECORD * count).to_be_bytes())?;
    out.extend_from_slice(&[count as u8, 1, 0, 0])?;
    for _ in 0..count {
        put_new_record(&mut out, chance)?;
    }
    Ok(out)
}

/// A message of version 0.
fn old_message(alloc: Global, chance: &mut Chance) -> Result<Vec<u8>, NoMemory> {
    let count = 1 + chance.below(3) as u16;
    let mut out = Vec::new(alloc);
    out.extend_from_slice(&[count as u8, chance.below(3) as u8])?;
    out.extend_from_slice(&(OLD_HEADER + OLD_RECORD * count).to_be_bytes())?;
    for _ in 0..count {
        put_old_record(&mut out, chance)?;
    }
    Ok(out)
}

/// A byte of the message becomes another one.
fn spoil(bytes: &mut [u8], chance: &mut Chance) {
    if !bytes.is_empty() {
        let place = chance.place(bytes.len());
        bytes[place] = chance.byte();
    }
}

/// Appends a message that arrives for the backup daemon.
pub(crate) fn put_message(
    alloc: Global,
    out: &mut Vec<u8>,
    chance: &mut Chance,
) -> Result<(), NoMemory> {
    let mut bytes = if chance.once_in(4) {
        old_message(alloc, chance)?
    } else {
        new_message(alloc, chance)?
    };
    if chance.once_in(6) {
        spoil(&mut bytes, chance);
    }
    put(out, b"sync ")?;
    put_hex(out, &bytes)
}
