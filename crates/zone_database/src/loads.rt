//! Zones of texts, put among those of a database.
ghost use Rattle.std.specs.Prelude.{◌≡◌, ◌⊎◌, IfErr, IfOk, IsErr, Ok, OnErr, OnOk};
ghost use Rattle.zone_database.specs.Databases.{zones_in};
ghost use Rattle.zone_database.specs.Calls.{origin_of, IsAdded, IsDropped, IsLoaded, IsMade, IsPrepared, IsPreparedAt, IsPut, PutsZone};
ghost use Rattle.zone_database.specs.Texts.{IsTextFault, IsZoneOfText};

use crate::database::ZoneDatabase;
use crate::outcome::Outcome;
use crate::reading::{ReadZone, TextFault, read_zone};
use crate::reporting::{tell_fault, tell_warnings};
use std::alloc::Global;
use std::str;
use zone_proto::{LowerName, Name, ProtoError};
use zone_tokens::read_name_under;

/// Puts the zone of an origin that a text makes in place of the one of this origin, or among the others. What is
/// reported about the text is put behind `told`.
#[tactic(auto, using(crate::proofs::CallFacts::unread, crate::proofs::CallFacts::read_on))]
pub(crate) fn load_zone(
    alloc: Global,
    database: &mut ZoneDatabase,
    origin: &[u8],
    text: &[u8],
    told: &mut String,
) -> Outcome
    ensures { IsLoaded origin.now text.now (zones_in database.old) result (zones_in database.new) }
{
    match origin_of(alloc, origin) {
        Ok(name) => put_text(alloc, database, name, label_of(origin), text, told),
        Err(outcome) => outcome,
    }
}

/// Puts the zone of an origin that a text makes among the others, unless there is one of this origin.
#[tactic(auto, using(crate::proofs::CallFacts::unread, crate::proofs::CallFacts::read_on))]
pub(crate) fn add_zone(
    alloc: Global,
    database: &mut ZoneDatabase,
    origin: &[u8],
    text: &[u8],
    told: &mut String,
) -> Outcome
    ensures { IsAdded origin.now text.now (zones_in database.old) result (zones_in database.new) }
{
    match origin_of(alloc, origin) {
        Ok(name) => put_new(alloc, database, name, label_of(origin), text, told),
        Err(outcome) => outcome,
    }
}

/// Takes the zone of an origin out.
#[tactic(auto, using(crate::proofs::CallFacts::unread, crate::proofs::CallFacts::read_on))]
pub(crate) fn remove_zone(alloc: Global, database: &mut ZoneDatabase, origin: &[u8]) -> Outcome
    ensures { IsDropped origin.now (zones_in database.old) result (zones_in database.new) }
{
    match origin_of(alloc, origin) {
        Ok(name) => {
            if database.remove(&LowerName::from(name)) {
                Outcome::Done
            } else {
                Outcome::NoZone
            }
        }
        Err(outcome) => outcome,
    }
}

/// Keeps the answers that the zone of an origin gives most.
#[tactic(auto, using(crate::proofs::CallFacts::unread, crate::proofs::CallFacts::read_on))]
pub(crate) fn prepare_zone(alloc: Global, database: &mut ZoneDatabase, origin: &[u8]) -> Outcome
    ensures { IsPrepared origin.now (zones_in database.old) result (zones_in database.new) }
{
    match origin_of(alloc, origin) {
        Ok(name) => prepare_at(alloc, database, &LowerName::from(name)),
        Err(outcome) => outcome,
    }
}

/// Keeps the answers that the zone of an origin gives most.
fn prepare_at(alloc: Global, database: &mut ZoneDatabase, origin: &LowerName) -> Outcome
    ensures { IsPreparedAt origin.now (zones_in database.old) result (zones_in database.new) }
{
    match database.prepare(alloc, origin) {
        Ok(true) => Outcome::Done,
        Ok(false) => Outcome::NoZone,
        Err(_) => Outcome::NoMemory,
    }
}

/// The origin that octets name (RFC 1035 section 5.1); a final dot may be left out. Refused by `BadName` where they are no name, and
/// by `NoMemory`.
pub fn origin_of(alloc: Global, origin: &[u8]) -> Result<Name, Outcome>
    ensures name { IfOk result (λ n. origin_of origin.now ≡ Ok n) }
    ensures refusal { IfErr result (λ o. (o ≡ Outcome.NoMemory)
        ⊎ ((o ≡ Outcome.BadName) × IsErr (origin_of origin.now))) }
{
    match read_name_under(alloc, &Name::root(alloc), origin) {
        Ok(name) => Ok(name),
        Err(ProtoError::Memory) => Err(Outcome::NoMemory),
        Err(_) => Err(Outcome::BadName),
    }
}

/// What stands for the name of a file before what is reported about a text: the origin, as it is spelled.
fn label_of(origin: &[u8]) -> &str {
    match str::from_utf8(origin) {
        Ok(label) => label,
        Err(_) => "",
    }
}

/// Puts the zone that a text makes among the others, unless there is one of its origin.
fn put_new(
    alloc: Global,
    database: &mut ZoneDatabase,
    origin: Name,
    label: &str,
    text: &[u8],
    told: &mut String,
) -> Outcome
    ensures { IsMade origin text.now (zones_in database.old) result (zones_in database.new) }
{
    let Ok(lowered) = LowerName::new(&origin) else {
        return Outcome::NoMemory;
    };
    if database.contains(&lowered) {
        return Outcome::ZoneExists;
    }
    put_text(alloc, database, origin, label, text, told)
}

/// Puts the zone that a text makes in place of the one of its origin, or among the others.
fn put_text(
    alloc: Global,
    database: &mut ZoneDatabase,
    origin: Name,
    label: &str,
    text: &[u8],
    told: &mut String,
) -> Outcome
    ensures { IsPut origin text.now (zones_in database.old) result (zones_in database.new) }
{
    match read_zone(alloc, origin, text) {
        Ok(read) => put_read(alloc, database, read, label, told),
        Err(TextFault::Memory) => Outcome::NoMemory,
        Err(fault) => told_fault(&fault, label, told),
    }
}

/// Puts a zone that was read in place of the one of its origin, or among the others.
fn put_read(
    alloc: Global,
    database: &mut ZoneDatabase,
    read: ReadZone,
    label: &str,
    told: &mut String,
) -> Outcome
    ensures { PutsZone read.zone (zones_in database.old) result (zones_in database.new) }
{
    let ReadZone { zone, warnings } = read;
    if tell_warnings(warnings.as_slice(), label, told).is_err() {
        return Outcome::NoMemory;
    }
    match database.put(alloc, zone) {
        Ok(()) => Outcome::Done,
        Err(_) => Outcome::NoMemory,
    }
}

/// Tells a fault.
fn told_fault(fault: &TextFault, label: &str, told: &mut String) -> Outcome
    ensures { (result ≡ Outcome.BadText) ⊎ (result ≡ Outcome.NoMemory) }
{
    match tell_fault(fault, label, told) {
        Ok(()) => Outcome::BadText,
        Err(_) => Outcome::NoMemory,
    }
}
