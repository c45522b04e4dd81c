//! Makes the calls on the current set, and on those that are collected.
ghost use Rattle.std.specs.Prelude.{◌≡◌, true, false};
ghost use Rattle.zone_proto.specs.Sets.{is_single, stores};

use crate::state::replace;
use library_rows_arguments::{Arguments, Held};
use library_rows_values::{Answer, write_made_set, write_records, write_set};
use zone_proto::{LowerName, ProtoError, RData, RecordSet, RecordType, RrKey, Rrsigs};

/// Makes a call on sets.
pub fn make_set_call(out: &mut Answer, held: &mut Held, verb: &str, arguments: &mut Arguments<'_>) {
    match verb {
        "set" => replace(out, &mut held.set, Some(new_set(arguments))),
        "keep" => keep(out, held),
        "kept" => out.hold(held.set == held.kept),
        "collect" => collect(out, held),
        "collect under" => collect_under(out, held, arguments.take_key()),
        verb => match &mut held.set {
            Some(set) => make_on_set(out, set, verb, arguments),
            None => out.say("no current set"),
        },
    }
}

/// A set without records, with a serial or a TTL.
fn new_set(arguments: &mut Arguments<'_>) -> RecordSet {
    let (name, record_type, number) = (
        arguments.take_name(),
        arguments.take_type(),
        arguments.take_long(),
    );
    if arguments.is_flagged {
        RecordSet::with_ttl(name, record_type, number)
    } else {
        RecordSet::new(name, record_type, number)
    }
}

/// Keeps a copy of the current set.
fn keep(out: &mut Answer, held: &mut Held) {
    match &held.set {
        Some(set) => put_copy(out, &mut held.kept, set.clone()),
        None => out.say("no current set"),
    }
}

fn put_copy(out: &mut Answer, place: &mut Option<RecordSet>, copy: Result<RecordSet, ProtoError>) {
    match copy {
        Ok(copy) => replace(out, place, Some(copy)),
        Err(error) => out.fail(error),
    }
}

/// Collects the current set, under its own key.
fn collect(out: &mut Answer, held: &mut Held) {
    match &held.set {
        Some(set) => match own_key(set) {
            Ok(key) => collect_under(out, held, key),
            Err(error) => out.fail(error),
        },
        None => out.say("no current set"),
    }
}

/// The key of a set's own name and type.
fn own_key(set: &RecordSet) -> Result<RrKey, ProtoError> {
    Ok(RrKey::new(LowerName::new(set.name())?, set.record_type()))
}

fn collect_under(out: &mut Answer, held: &mut Held, key: RrKey) {
    match held.set.take() {
        Some(set) => {
            let kept = held.collected.insert(key, set).is_ok();
            out.say(if kept { "done" } else { "error: out of memory" });
        }
        None => out.say("no current set"),
    }
}

/// Makes a call on the current set.
fn make_on_set(out: &mut Answer, set: &mut RecordSet, verb: &str, arguments: &mut Arguments<'_>) {
    match verb {
        "insert" => insert(out, set, arguments),
        "add" => add(out, set, arguments),
        "append" => append(out, set, arguments),
        "sign" => sign(out, set, arguments),
        "copy set" => write_made_set(out, set.clone()),
        "records" => write_lent(out, set, arguments.is_flagged),
        "show" => show(out, set),
        "slice" => out.put(&set.as_slice().len()),
        verb => change(out, set, verb, arguments),
    }
}

/// Makes a call that changes signatures or serials.
fn change(out: &mut Answer, set: &mut RecordSet, verb: &str, arguments: &mut Arguments<'_>) {
    match verb {
        "unsign" => {
            set.clear_rrsigs();
            out.say("done");
        }
        "step serial" => {
            set.step_serial();
            out.put(&set.serial());
        }
        "set serial" => {
            set.set_serial(arguments.take_long());
            out.put(&set.serial());
        }
        verb => sign_anew(out, set, verb, arguments),
    }
}

/// Makes a call that takes a list of signatures.
fn sign_anew(out: &mut Answer, set: &mut RecordSet, verb: &str, arguments: &mut Arguments<'_>) {
    match arguments.rrsigs.take() {
        Some(rrsigs) if verb == "replace" => {
            set.replace_rrsigs(rrsigs);
            out.put(&set.rrsigs().len());
            out.say(" signatures");
        }
        Some(rrsigs) => exchange(out, set, rrsigs, arguments.take_number()),
        None => out.say("no signatures"),
    }
}

/// Exchanges signatures from a place on.
fn exchange(out: &mut Answer, set: &mut RecordSet, mut others: Rrsigs, start: u64) {
    let moved = set.exchange_rrsigs(&mut others, usize::try_from(start).unwrap_or(0));
    out.put(&moved);
    out.say(" exchanged, ");
    out.put(&others.len());
    out.say(" in the list, ");
    out.put(&set.rrsigs().len());
    out.say(" in the set");
    drop(others);
}

/// Writes the records that a set lends, with its signatures or without them; after the last it lends nothing.
fn write_lent(out: &mut Answer, set: &RecordSet, signed: bool) {
    let mut records = set.records(signed);
    let lent = write_records(out, records.by_ref());
    out.put(&lent);
    out.say(" lent");
    if records.next().is_some() || records.next().is_some() {
        out.say(", and more");
    }
}

/// Writes the set with its owner, its class and its type.
fn show(out: &mut Answer, set: &RecordSet) {
    out.put(set.name());
    out.say(" ");
    out.put(&set.dns_class());
    out.say(" ");
    out.put(&set.record_type());
    out.say(": ");
    write_set(out, set);
}

/// Inserts a record that has the set's owner and type.
fn insert(out: &mut Answer, set: &mut RecordSet, arguments: &mut Arguments<'_>) {
    let record = arguments.take_record();
    if record.name == *set.name() && record.record_type() == set.record_type() {
        out.tell(set.insert(record, arguments.take_long()));
    } else {
        drop(record);
        out.say("not for this caller");
    }
}

/// Appends a record that has the set's owner and type, and data that the set doesn't have, where it may have several.
fn append(out: &mut Answer, set: &mut RecordSet, arguments: &mut Arguments<'_>) {
    let record = arguments.take_record();
    if record.name == *set.name()
        && record.record_type() == set.record_type()
        && has_room(set)
        && !has_data(set, &record.rdata)
    {
        out.done(set.append(record, arguments.take_long()));
    } else {
        drop(record);
        out.say("not for this caller");
    }
}

/// Whether a set may have several records.
fn has_room(set: &RecordSet) -> bool
    ensures { result ≡ true → is_single set.now.record_type ≡ false }
{
    !matches!(
        set.record_type(),
        RecordType::SOA | RecordType::CNAME | RecordType::ANAME
    )
}

/// Whether a set has a record of these data.
fn has_data(set: &RecordSet, rdata: &RData) -> bool
    ensures { result ≡ stores set.now.records rdata.now }
{
    set.as_slice().iter().any(|stored| stored.rdata == *rdata)
}

/// Adds data that have the set's type.
fn add(out: &mut Answer, set: &mut RecordSet, arguments: &mut Arguments<'_>) {
    let rdata = arguments.take_data();
    if rdata.record_type() == set.record_type() {
        out.tell(set.add_rdata(rdata));
    } else {
        drop(rdata);
        out.say("not for this caller");
    }
}

/// Adds a signature.
fn sign(out: &mut Answer, set: &mut RecordSet, arguments: &mut Arguments<'_>) {
    let record = arguments.take_record();
    if record.record_type() == RecordType::RRSIG {
        out.done(set.insert_rrsig(record));
    } else {
        drop(record);
        out.say("not for this caller");
    }
}
