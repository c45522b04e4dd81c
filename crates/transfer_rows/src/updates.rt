//! Updates of the zones of a server with keys: who may change what, and how it answers.

use crate::access::KeyedServer;
use compared_rows::read_octets;
use held_updates::{
    Commit, PlannedUpdate, UpdateAccess, UpdateAnswer, commit_update, plan_update, update_with_keys,
};
use key_files::KeyFileError;
use line_text::{HexText, RecordText, TextError, Words, read_name, read_type};
use std::alloc::Global;
use update_policy::{Rule, RuleScope};
use zone_database::zone_of;
use zone_map::RecordMap;
use zone_proto::LowerName;

/// How many types a rule has at most in a row.
const MOST_TYPES: usize = 16;

/// The keys of a file that was read before, by which nobody may change anything yet.
pub fn update_keys(alloc: Global, text: &[u8]) -> Result<UpdateAccess, TextError> {
    match UpdateAccess::read(alloc, text) {
        Ok(access) => Ok(access),
        Err(KeyFileError::Memory) => Err(TextError::Memory),
        Err(KeyFileError::Fault(_)) => Err(TextError::BadText),
    }
}

/// Adds a rule of a zone, about a name and all below it.
pub fn rule_told(
    alloc: Global,
    server: &mut KeyedServer,
    mut words: Words<'_>,
) -> Result<String, TextError> {
    let origin = LowerName::from(read_name(alloc, &mut words)?);
    let rule = read_rule(alloc, words)?;
    if !server.updates.has_key(&rule.key) {
        return Ok(format!(in alloc; "no such key")?);
    }
    server.updates.add_rule(alloc, origin, rule)?;
    Ok(format!(in alloc; "yes")?)
}

/// Reads a rule.
fn read_rule(alloc: Global, mut words: Words<'_>) -> Result<Rule, TextError> {
    let grants = match words.take_needed()? {
        b"grant" => true,
        b"deny" => false,
        _ => return Err(TextError::BadText),
    };
    let key = LowerName::from(read_name(alloc, &mut words)?);
    let name = LowerName::from(read_name(alloc, &mut words)?);
    let mut types = Vec::new(alloc);
    for _ in 0..MOST_TYPES {
        match read_type(&mut words) {
            Ok(record_type) => types.push(record_type)?,
            Err(_) => break,
        }
    }
    Ok(Rule {
        grants,
        key,
        scope: RuleScope::Subdomain,
        name,
        types,
    })
}

/// What a server answers to an update at a moment, with room for so many octets of a response.
pub fn update_told(
    alloc: Global,
    server: &mut KeyedServer,
    mut words: Words<'_>,
) -> Result<String, TextError> {
    let now = words.take_u64()?;
    let room = usize::from(words.take_u16()?);
    let message = read_octets(alloc, &mut words)?;
    words.end()?;
    let mut out = Vec::new(alloc);
    let answer = update_with_keys(
        alloc,
        &mut server.zones,
        &server.updates,
        now,
        room,
        message.as_slice(),
        &mut out,
    )?;
    let octets = HexText(out.as_slice());
    Ok(match answer {
        UpdateAnswer::Other => format!(in alloc; "no update")?,
        UpdateAnswer::Refused => format!(in alloc; "refused {octets}")?,
        UpdateAnswer::Unchanged => format!(in alloc; "unchanged {octets}")?,
        UpdateAnswer::TooLong => format!(in alloc; "too long {octets}")?,
        UpdateAnswer::Updated(origin) => format!(in alloc; "{origin} {octets}")?,
    })
}

/// What a server plans of an update at a moment.
pub fn plan_told(
    alloc: Global,
    server: &mut KeyedServer,
    mut words: Words<'_>,
) -> Result<String, TextError> {
    let now = words.take_u64()?;
    let message = read_octets(alloc, &mut words)?;
    words.end()?;
    let mut out = Vec::new(alloc);
    let octets = message.as_slice();
    let (zones, access) = (&mut server.zones, &server.updates);
    let planned = plan_update(alloc, zones, access, now, true, octets, &mut out)?;
    planned_text(alloc, server, planned, out.as_slice())
}

/// What is told of what is planned, whose response has these octets.
pub fn planned_text(
    alloc: Global,
    server: &mut KeyedServer,
    planned: PlannedUpdate,
    octets: &[u8],
) -> Result<String, TextError> {
    let octets = HexText(octets);
    Ok(match planned {
        PlannedUpdate::Other => format!(in alloc; "no update")?,
        PlannedUpdate::Refused => format!(in alloc; "refused {octets}")?,
        PlannedUpdate::Unchanged => format!(in alloc; "unchanged {octets}")?,
        PlannedUpdate::Updated(updated) => {
            let told = format!(in alloc; "{} {octets}", updated.zone.origin())?;
            server.planned = Some(updated);
            told
        }
    })
}

/// What comes of the update that was planned last.
pub fn commit_told(alloc: Global, server: &mut KeyedServer) -> Result<String, TextError> {
    let Some(updated) = server.planned.take() else {
        return Ok(format!(in alloc; "nothing is planned")?);
    };
    Ok(match commit_update(alloc, &mut server.zones, updated)? {
        Commit::Done => format!(in alloc; "done")?,
        Commit::Overtaken => format!(in alloc; "overtaken")?,
    })
}

/// Has a zone expire: one without records comes in its place.
pub fn expire_told(
    alloc: Global,
    server: &mut KeyedServer,
    mut words: Words<'_>,
) -> Result<String, TextError> {
    let origin = LowerName::from(read_name(alloc, &mut words)?);
    words.end()?;
    let zone = zone_of(alloc, origin, RecordMap::new(alloc))?;
    server.zones.put(alloc, zone)?;
    Ok(format!(in alloc; "yes")?)
}

/// The records of a zone.
pub fn records_told(
    alloc: Global,
    server: &KeyedServer,
    mut words: Words<'_>,
) -> Result<String, TextError> {
    let origin = LowerName::from(read_name(alloc, &mut words)?);
    words.end()?;
    let Some(zone) = server.zones.get(&origin) else {
        return Ok(format!(in alloc; "no such zone")?);
    };
    let mut told = String::new(alloc);
    for (_, set) in zone.inner.record_map().iter() {
        for record in set.as_slice() {
            write!(told, "{}; ", RecordText(record))?;
        }
    }
    Ok(told)
}
