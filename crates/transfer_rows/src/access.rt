//! A server with keys: who may have its zones, and what it answers.

use crate::updates::update_keys;
use held_transfers::{KeyedAnswer, TransferAccess, answer_with_keys};
use held_updates::{UpdateAccess, UpdatedZone};
use key_files::KeyFileError;
use line_text::{HexText, TextError, Words, read_hex, read_name};
use std::alloc::Global;
use std::collections::BTreeMap;
use update_denials::Prepared;
use zone_database::{TextFault, ZoneDatabase, read_zone};
use zone_proto::LowerName;
use zone_server::Transport;

/// A server with keys.
#[derive(Drop)]
pub struct KeyedServer {
    /// Its keys, and who may have which zone.
    access: TransferAccess,
    /// The same keys, and who may change what.
    pub updates: UpdateAccess,
    /// Its zones.
    pub zones: ZoneDatabase,
    /// The update that was planned last, unless it was committed.
    pub planned: Option<UpdatedZone>,
    /// The update of the signed zone of an origin that was prepared last, unless it was finished.
    pub prepared: Option<(LowerName, Prepared)>,
}

impl KeyedServer {
    /// A server without keys and without zones.
    pub fn new(alloc: Global) -> KeyedServer {
        KeyedServer {
            access: TransferAccess {
                keys: Vec::new(alloc),
                grants: Vec::new(alloc),
            },
            updates: UpdateAccess {
                keys: Vec::new(alloc),
                tables: BTreeMap::new(alloc),
            },
            zones: ZoneDatabase::new(alloc),
            planned: None,
            prepared: None,
        }
    }
}

/// Gives a server the keys of a file, and tells how many these are.
pub fn keys_told(alloc: Global, server: &mut KeyedServer, text: &str) -> Result<String, TextError> {
    let lines = text.replace(alloc, "|", "\n")?;
    match TransferAccess::read(alloc, lines.as_bytes()) {
        Ok(access) => {
            let count = access.keys.len();
            server.updates = update_keys(alloc, lines.as_bytes())?;
            server.access = access;
            Ok(format!(in alloc; "{count}")?)
        }
        Err(KeyFileError::Memory) => Err(TextError::Memory),
        Err(KeyFileError::Fault(fault)) => Ok(format!(in alloc; "{fault}")?),
    }
}

/// Gives a server a zone, by its origin and the text of its file.
pub fn zone_told(alloc: Global, server: &mut KeyedServer, text: &str) -> Result<String, TextError> {
    let (name, lines) = text.split_once(" ").unwrap_or((text, ""));
    let origin = read_name(alloc, &mut Words::new(name.as_bytes()))?;
    let lines = lines.replace(alloc, "|", "\n")?;
    match read_zone(alloc, origin, lines.as_bytes()) {
        Ok(read) => {
            server.zones.put(alloc, read.zone)?;
            Ok(format!(in alloc; "yes")?)
        }
        Err(TextFault::Memory) => Err(TextError::Memory),
        Err(_) => Err(TextError::BadText),
    }
}

/// Lets those have a zone who have a key, or anybody.
pub fn allow_told(
    alloc: Global,
    server: &mut KeyedServer,
    mut words: Words<'_>,
) -> Result<String, TextError> {
    let origin = LowerName::from(read_name(alloc, &mut words)?);
    let mut key = None;
    if words.take_flag(b"to")? {
        let name = LowerName::from(read_name(alloc, &mut words)?);
        if !server.access.has_key(&name) {
            return Ok(format!(in alloc; "no such key")?);
        }
        key = Some(name);
    }
    words.end()?;
    server.access.allow(origin, key)?;
    Ok(format!(in alloc; "yes")?)
}

/// What a server answers to a message at a moment.
pub fn request_told(
    alloc: Global,
    server: &KeyedServer,
    mut words: Words<'_>,
) -> Result<String, TextError> {
    let now = words.take_u64()?;
    let transport = match words.take_needed()? {
        b"tcp" => Transport::Tcp,
        b"udp" => Transport::Udp { limit: 1232 },
        _ => return Err(TextError::BadText),
    };
    let Some(message) = read_hex(alloc, words.take_needed()?)? else {
        return Err(TextError::BadText);
    };
    words.end()?;
    let mut out = Vec::new(alloc);
    let answer = answer_with_keys(
        alloc,
        &server.zones,
        &server.access,
        now,
        transport,
        message.as_slice(),
        &mut out,
    )?;
    Ok(match answer {
        KeyedAnswer::Unkeyed => format!(in alloc; "as any server")?,
        KeyedAnswer::Nothing => format!(in alloc; "nothing")?,
        KeyedAnswer::Response => format!(in alloc; "{}", HexText(out.as_slice()))?,
        KeyedAnswer::Transfer(_) => format!(in alloc; "the zone")?,
    })
}
