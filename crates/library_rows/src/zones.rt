//! Makes the calls on the zone, those that sign it among them.

use crate::signers::RowSigner;
use crate::state::{State, replace};
use crate::texts::{Zone, write_about, write_zone};
use library_rows_arguments::Arguments;
use library_rows_values::{Answer, write_set_handed_out, write_set_if_any};
use std::fmt::Display;
use zone_handler::{DnssecZoneHandler, KeyError, LookupOptions, SecureError};
use zone_proto::{
    DNSClass, DNSKEY, LowerName, ProtoError, RRSIG, Record, RecordSet, RecordType, RrKey, Signer,
};
use zone_store::{Found, InMemoryZoneHandler, InnerInMemory, PutRefused, Searches, ZoneError};

/// Makes a call on the zone.
pub fn make_zone_call(
    out: &mut Answer,
    state: &mut State,
    verb: &str,
    arguments: &mut Arguments<'_>,
) {
    match verb {
        "empty" => replace(out, &mut state.zone, empty_zone(arguments)),
        "make" => make_zone(out, state, arguments),
        "put" => put(out, state),
        "map" => make_map(out, arguments),
        "key" | "key mut" => add_key(out, &mut state.zone, verb, arguments),
        "secure" | "secure mut" => secure(out, &mut state.zone, verb, arguments.take_number()),
        "signer" => ask_signer(out, &state.held.set, arguments),
        verb => make_on_zone(out, &mut state.zone, verb, arguments),
    }
}

/// Makes a call that only looks at the zone, or that changes its records.
fn make_on_zone(out: &mut Answer, zone: &mut Zone, verb: &str, arguments: &mut Arguments<'_>) {
    match verb {
        "about" => write_about(out, zone),
        "dump" => write_zone(out, zone),
        "signers" => write_signers(out, zone),
        "get" => get(out, zone.inner(), &arguments.take_key()),
        "upsert" | "upsert mut" => upsert(out, zone, verb, arguments),
        "remove" => remove(out, zone, arguments),
        "refusal zone" => out.put(&ZoneError::Memory),
        _ => {
            zone.clear();
            out.say("done");
        }
    }
}

/// Writes how many signers the zone has, and whether its map says otherwise.
fn write_signers(out: &mut Answer, zone: &Zone) {
    out.put(&zone.secure_keys().len());
    if zone.inner().signers().len() != zone.secure_keys().len() {
        out.say(" and others");
    }
}

/// Writes how many sets a map has, and the one under a key.
fn get(out: &mut Answer, inner: &InnerInMemory<RowSigner>, key: &RrKey) {
    out.put(&inner.as_map().len());
    out.say(" sets, ");
    write_set_if_any(out, inner.get(key));
}

fn upsert(out: &mut Answer, zone: &mut Zone, verb: &str, arguments: &mut Arguments<'_>) {
    let record = arguments.take_record();
    let serial = arguments.take_long();
    if verb == "upsert" {
        out.tell(zone.upsert(record, serial));
    } else {
        out.tell(zone.upsert_mut(record, serial));
    }
}

fn remove(out: &mut Answer, zone: &mut Zone, arguments: &mut Arguments<'_>) {
    write_set_handed_out(out, zone.remove_set(&arguments.take_key()));
}

/// A zone without records.
fn empty_zone(arguments: &mut Arguments<'_>) -> Zone {
    InMemoryZoneHandler::empty(
        arguments.take_name(),
        arguments.zone_type,
        arguments.policy,
        arguments.take_kind(),
        arguments.take_hash(),
    )
}

/// Makes a zone of sets, which takes the place of the one before.
fn make_zone(out: &mut Answer, state: &mut State, arguments: &mut Arguments<'_>) {
    let made = InMemoryZoneHandler::new(
        arguments.take_name(),
        arguments.take_sets(),
        arguments.zone_type,
        arguments.policy,
        arguments.take_kind(),
        arguments.take_hash(),
    );
    replace_if_made(out, &mut state.zone, made);
}

/// Puts what a call made into the place of what was there before, or writes its error.
fn replace_if_made<T: Drop, E: Display + Drop>(
    out: &mut Answer,
    place: &mut T,
    made: Result<T, E>,
) {
    match made {
        Ok(value) => replace(out, place, value),
        Err(error) => out.fail(error),
    }
}

/// Stores the current set, which is current again if it is refused.
fn put(out: &mut Answer, state: &mut State) {
    match state.held.set.take() {
        Some(set) => write_put(out, &mut state.held.set, state.zone.put_set(set)),
        None => out.say("no current set"),
    }
}

fn write_put(
    out: &mut Answer,
    current: &mut Option<RecordSet>,
    put: Result<Option<RecordSet>, PutRefused>,
) {
    match put {
        Ok(before) => write_set_handed_out(out, before),
        Err(PutRefused::Empty(set)) => take_back(out, current, set, "no"),
        Err(PutRefused::Memory(set)) => take_back(out, current, set, "error: out of memory"),
    }
}

/// Takes a refused set back as the current one.
fn take_back(out: &mut Answer, current: &mut Option<RecordSet>, set: RecordSet, answer: &str) {
    *current = Some(set);
    out.say(answer);
}

/// Makes a map by itself, and takes a record into it as one of a class: whether it was taken, and the serial of the set that is
/// then found for its name and type.
fn make_map(out: &mut Answer, arguments: &mut Arguments<'_>) {
    let record = arguments.take_record();
    let class = DNSClass(arguments.take_short());
    match LowerName::new(&record.name) {
        Ok(name) => take_into_map(out, &name, record, class),
        Err(error) => {
            drop(record);
            out.fail(error);
        }
    }
}

fn take_into_map(out: &mut Answer, name: &LowerName, record: Record, class: DNSClass) {
    let mut map: InnerInMemory<RowSigner> = InnerInMemory::new(name.alloc());
    take_into(out, &mut map, name, record, class);
    drop(map);
}

fn take_into(
    out: &mut Answer,
    map: &mut InnerInMemory<RowSigner>,
    name: &LowerName,
    record: Record,
    class: DNSClass,
) {
    let record_type = record.record_type();
    match map.upsert(record, 7, class) {
        Ok(taken) => write_taken(out, map, taken, name, record_type),
        Err(error) => out.fail(error),
    }
}

fn write_taken(
    out: &mut Answer,
    map: &InnerInMemory<RowSigner>,
    taken: bool,
    name: &LowerName,
    record_type: RecordType,
) {
    let mut searches = Searches::default();
    match map.inner_lookup(
        name,
        record_type,
        LookupOptions::for_dnssec(),
        &mut searches,
    ) {
        Ok(found) => {
            out.say("taken: ");
            out.put(&taken);
            write_serial(out, found.as_ref());
            drop(found);
            out.put(&searches.count());
            out.say(" searched");
        }
        Err(error) => out.fail(error),
    }
}

/// Writes the serial of what was found.
fn write_serial(out: &mut Answer, found: Option<&Found<'_>>) {
    match found {
        Some(found) => {
            out.say(", serial ");
            out.put(&found.set().serial());
            out.say(", ");
        }
        None => out.say(", nothing found, "),
    }
}

/// Makes a signer and adds it, through the trait of handlers that sign, or to the zone itself.
fn add_key(out: &mut Answer, zone: &mut Zone, verb: &str, arguments: &mut Arguments<'_>) {
    let (origin, number) = (arguments.take_lower(), arguments.take_short());
    match RowSigner::new(number, &origin, arguments.manner) {
        Ok(signer) => write_added(out, add_signer(zone, verb, signer)),
        Err(error) => out.fail(error),
    }
}

fn add_signer(zone: &mut Zone, verb: &str, signer: RowSigner) -> Result<(), KeyError> {
    if verb == "key" {
        add_key_to(zone, signer)
    } else {
        zone.add_zone_signing_key_mut(signer)
    }
}

fn write_added(out: &mut Answer, added: Result<(), KeyError>) {
    out.say(match added {
        Ok(()) => "done",
        Err(KeyError::NoKey) => "error: NoKey",
        Err(KeyError::Memory) => "error: out of memory",
    });
}

/// Adds a signer to any handler that signs.
fn add_key_to<S: Signer, Z: DnssecZoneHandler<S>>(zone: &mut Z, signer: S) -> Result<(), KeyError>
    ensures { Z.adds_key zone.old «signer» result zone.new }
{
    zone.add_zone_signing_key(signer)
}

/// Secures the zone at a moment, through the trait of handlers that sign, or by its own call.
fn secure(out: &mut Answer, zone: &mut Zone, verb: &str, now: u64) {
    if verb == "secure" {
        write_secured(out, secure_any::<RowSigner, Zone>(zone, now));
    } else {
        write_secured(out, zone.secure_zone_mut(now));
    }
}

fn write_secured(out: &mut Answer, secured: Result<(), SecureError>) {
    match secured {
        Ok(()) => out.say("done"),
        Err(SecureError::Memory) => out.say("error: out of memory"),
        Err(error) => {
            out.say("error: ");
            out.show(&error);
            drop(error);
        }
    }
}

/// Secures any handler that signs.
fn secure_any<S: Signer, Z: DnssecZoneHandler<S>>(zone: &mut Z, now: u64) -> Result<(), SecureError>
    ensures { Z.secures zone.old now result zone.new }
{
    zone.secure_zone(now)
}

/// Makes a signer, and writes the flags of its key, and the tag of its signature of the current set at a moment.
fn ask_signer(out: &mut Answer, set: &Option<RecordSet>, arguments: &mut Arguments<'_>) {
    let (origin, number) = (arguments.take_lower(), arguments.take_short());
    match RowSigner::new(number, &origin, arguments.manner) {
        Ok(signer) => write_asked(out, signer, set.as_ref(), arguments.take_number()),
        Err(error) => out.fail(error),
    }
}

/// The same of any signer.
fn write_asked<S: Signer + Drop>(out: &mut Answer, signer: S, set: Option<&RecordSet>, now: u64) {
    write_flags(out, signer.dnskey());
    if let Some(set) = set {
        write_tag(out, signer.sign(set, DNSClass::IN, now));
    }
}

fn write_flags(out: &mut Answer, key: Result<Option<DNSKEY>, ProtoError>) {
    match key {
        Ok(Some(key)) => {
            out.say("flags ");
            out.put(&key.flags);
        }
        Ok(None) => out.say("no key"),
        Err(error) => out.fail(error),
    }
    out.say(", ");
}

fn write_tag(out: &mut Answer, signature: Result<Option<RRSIG>, ProtoError>) {
    match signature {
        Ok(Some(rrsig)) => {
            out.say("tag ");
            out.put(&rrsig.key_tag);
        }
        Ok(None) => out.say("no signature"),
        Err(error) => out.fail(error),
    }
}
