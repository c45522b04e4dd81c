//! Judges what the zone's records prove, as a validator does.

use crate::state::State;
use crate::texts::Zone;
use denial_validation::{Proof, nsec, nsec3};
use library_rows_arguments::{Arguments, RowHash};
use library_rows_values::Answer;
use zone_proto::{LowerName, Name, ProtoError, RData, Record, RecordType};

/// Judges what the first eight records of the zone prove, by NSEC, or by NSEC3 with the hash beside the zone; or makes
/// one of the calls that ask for a certain proof. It doesn't allocate to list the records.
pub fn make_judgement_call(
    out: &mut Answer,
    state: &mut State,
    verb: &str,
    arguments: &mut Arguments<'_>,
) {
    let (name, apex) = (arguments.take_lower(), arguments.take_lower());
    let asked = Asked {
        apex: &apex,
        name: &name,
        record_type: arguments.take_type(),
        labels: usize::try_from(arguments.take_number()).unwrap_or(0),
    };
    let other = Record::from_rdata(Name::root(arguments.alloc), 0, RData::A([0, 0, 0, 0]));
    let records = first_records(&state.zone, &other);
    judge(
        out,
        records.as_slice(),
        &state.hash,
        verb,
        &asked,
        arguments.text,
    );
    drop(other);
}

/// Judges what records prove.
fn judge(
    out: &mut Answer,
    records: &[&Record],
    hash: &RowHash,
    verb: &str,
    asked: &Asked<'_>,
    kind: &str,
) {
    match verb {
        "judge" => write_proof(out, proof_of(records, asked)),
        "judge hashed" => write_proof(out, proof_by_hash(records, asked, hash)),
        "proves" => out.hold(is_proved(records, asked, kind)),
        _ => out.tell(is_proved_by_hash(records, asked, hash, kind)),
    }
}

fn proof_of(records: &[&Record], asked: &Asked<'_>) -> Result<Option<Proof>, ProtoError> {
    Ok(nsec::proof(asked.apex, records, asked.name, asked.record_type))
}

fn proof_by_hash(
    records: &[&Record],
    asked: &Asked<'_>,
    hash: &RowHash,
) -> Result<Option<Proof>, ProtoError> {
    nsec3::proof(asked.apex, records, asked.name, asked.record_type, hash)
}

/// What is asked of the records: a name and a type in the zone of an apex, and how many labels a closest encloser has.
#[derive(Drop)]
struct Asked<'a> {
    apex: &'a LowerName,
    name: &'a LowerName,
    record_type: RecordType,
    labels: usize,
}

/// The zone's first eight records in the order of keys; in the places that are left another one, which proves nothing.
fn first_records<'z>(zone: &'z Zone, other: &'z Record) -> [&'z Record; 8] {
    [
        record_at(zone, 0, other),
        record_at(zone, 1, other),
        record_at(zone, 2, other),
        record_at(zone, 3, other),
        record_at(zone, 4, other),
        record_at(zone, 5, other),
        record_at(zone, 6, other),
        record_at(zone, 7, other),
    ]
}

/// The zone's record at a place, in the order of keys; the other one where it has fewer.
fn record_at<'z>(zone: &'z Zone, place: usize, other: &'z Record) -> &'z Record {
    let mut left = place;
    for (_, set) in zone.records().iter() {
        let records = set.as_slice();
        if let Some(record) = records.get(left) {
            return record;
        }
        left = left.saturating_sub(records.len());
    }
    other
}

/// Writes what is proved.
fn write_proof(out: &mut Answer, proof: Result<Option<Proof>, ProtoError>) {
    match proof {
        Ok(Some(proof)) => out.show(&proof),
        Ok(None) => out.say("nothing"),
        Err(error) => out.fail(error),
    }
}

/// Whether NSEC records prove what a word says.
fn is_proved(records: &[&Record], asked: &Asked<'_>, word: &str) -> bool {
    let (apex, name, record_type) = (asked.apex, asked.name, asked.record_type);
    match word {
        "name-error" => nsec::proves_name_error(apex, records, name),
        "no-data" => nsec::proves_no_data(apex, records, name, record_type),
        "delegation" => nsec::proves_unsigned_delegation(apex, records, name),
        "empty-non-terminal" => nsec::proves_empty_non_terminal(apex, records, name),
        "wildcard-no-data" => nsec::proves_wildcard_no_data(apex, records, name, record_type),
        _ => nsec::proves_wildcard_answer(apex, records, name, asked.labels),
    }
}

/// Whether NSEC3 records prove what a word says.
fn is_proved_by_hash(
    records: &[&Record],
    asked: &Asked<'_>,
    hash: &RowHash,
    word: &str,
) -> Result<bool, ProtoError> {
    let (apex, name, record_type) = (asked.apex, asked.name, asked.record_type);
    match word {
        "name-error" => nsec3::proves_name_error(apex, records, name, hash),
        "no-data" => nsec3::proves_no_data(apex, records, name, record_type, hash),
        "delegation" => nsec3::proves_unsigned_delegation(apex, records, name, hash),
        "wildcard-no-data" => {
            nsec3::proves_wildcard_no_data(apex, records, name, record_type, hash)
        }
        _ => nsec3::proves_wildcard_answer(apex, records, name, asked.labels, hash),
    }
}
