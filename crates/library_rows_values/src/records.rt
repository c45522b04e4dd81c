//! Makes the calls on types, data, records and questions.

use crate::names::write_sameness;
use crate::write::Answer;
use library_rows_arguments::Arguments;
use line_text::{DataText, HexText, RecordText};
use zone_proto::{
    DNSClass, NxProofKind, OtherData, ProtoError, Query, RData, Record, RecordType, ResponseCode,
    Seq, first_serial, is_derived, is_newer, is_single, soa_serial,
};

/// Makes a call on types, data and records.
pub fn make_record_call(out: &mut Answer, verb: &str, arguments: &mut Arguments<'_>) {
    match verb {
        "record" => write_record(out, Ok(arguments.take_record())),
        "copy record" => copy_record(out, arguments),
        "copy data" => copy_data(out, arguments),
        "data order" => order_data(out, arguments),
        "copy kind" => copy_kind(out, arguments),
        "equal" => compare_records(out, arguments),
        "of type" => write_types_of(out, arguments.take_record()),
        "vec" => out.octets(copied_octets(arguments)),
        verb => make_octets_call(out, verb, arguments),
    }
}

/// Makes a call on octets.
fn make_octets_call(out: &mut Answer, verb: &str, arguments: &mut Arguments<'_>) {
    match verb {
        "octets" => write_octets(out, other_data(arguments)),
        "other" => write_other(out, other_data(arguments)),
        "list" => write_list(out, arguments),
        verb => make_type_call(out, verb, arguments),
    }
}

/// Writes whether two records are equal.
fn compare_records(out: &mut Answer, arguments: &mut Arguments<'_>) {
    let second = arguments.take_record();
    out.compare(&second, Ok(arguments.take_record()));
    drop(second);
}

/// Writes how data stand to others in their order.
fn order_data(out: &mut Answer, arguments: &mut Arguments<'_>) {
    let second = arguments.take_data();
    let first = arguments.take_data();
    write_sameness(out, first == second, first.partial_cmp(&second));
    drop(first);
    drop(second);
}

/// Writes the type of a record, and that of its data.
fn write_types_of(out: &mut Answer, record: Record) {
    out.put(&record.record_type());
    out.say(" ");
    out.put(&record.rdata.record_type());
    drop(record);
}

/// Other data of a type and octets.
fn other_data(arguments: &mut Arguments<'_>) -> Option<OtherData> {
    OtherData::new(arguments.take_type(), arguments.take_octets())
}

fn write_octets(out: &mut Answer, made: Option<OtherData>) {
    match made {
        Some(other) => write_data(out, Ok(RData::Other(other))),
        None => out.say("nothing"),
    }
}

fn write_other(out: &mut Answer, made: Option<OtherData>) {
    match made {
        Some(other) => {
            out.put(&other.record_type());
            out.say(" ");
            out.put(&HexText(other.octets()));
            drop(other);
        }
        None => out.say("nothing"),
    }
}

/// Writes a list of octets and one without any, and whether the list is equal to itself and not to the other.
fn write_list(out: &mut Answer, arguments: &mut Arguments<'_>) {
    let (list, none): (Seq<u8>, Seq<u8>) = (
        Seq::from_vec(arguments.take_octets()),
        Seq::new(arguments.alloc),
    );
    out.put(&HexText(list.as_slice()));
    out.say(" ");
    out.put(&HexText(none.as_slice()));
    out.say(", ");
    out.hold(list == list && list != none);
    drop(list);
    drop(none);
}

/// Makes a call on types, classes, codes and questions.
fn make_type_call(out: &mut Answer, verb: &str, arguments: &mut Arguments<'_>) {
    match verb {
        "type" => write_type(out, arguments.text),
        "types" => {
            let second = arguments.take_type();
            out.order(arguments.take_type().cmp(&second));
        }
        "kind of" => write_kind(out, arguments.take_type()),
        "newer" => {
            let than = arguments.take_long();
            out.hold(is_newer(arguments.take_long(), than));
        }
        "serial of" => write_serials(out, arguments.take_record()),
        "class" => out.value(DNSClass(arguments.take_short())),
        "question" => write_question(out, arguments.take_query()),
        _ => out.value(code_of(arguments.take_short())),
    }
}

fn write_question(out: &mut Answer, query: Query) {
    out.put(query.name());
    out.say(" ");
    out.put(&query.query_type());
}

/// Writes the type of a text, and its number.
fn write_type(out: &mut Answer, text: &str) {
    match RecordType::from_text(text) {
        Some(record_type) => {
            out.put(&record_type);
            out.say(" ");
            out.put(&record_type.0);
        }
        None => out.say("nothing"),
    }
}

/// Writes whether sets of a type have one record at most, and whether they are made where a zone is signed.
fn write_kind(out: &mut Answer, record_type: RecordType) {
    out.hold(is_single(record_type));
    out.say(" ");
    out.hold(is_derived(record_type));
}

/// Writes the serial of the data of a record, and that of the first of records of which this is the only one.
fn write_serials(out: &mut Answer, record: Record) {
    let records = [record];
    write_serial(out, soa_serial(&records[0].rdata));
    out.say(" ");
    write_serial(out, first_serial(&records));
    drop(records);
}

fn write_serial(out: &mut Answer, serial: Option<u32>) {
    match serial {
        Some(serial) => out.put(&serial),
        None => out.say("none"),
    }
}

/// The response code of a number.
pub fn code_of(number: u16) -> ResponseCode {
    match number {
        0 => ResponseCode::NoError,
        1 => ResponseCode::FormErr,
        2 => ResponseCode::ServFail,
        3 => ResponseCode::NXDomain,
        4 => ResponseCode::NotImp,
        5 => ResponseCode::Refused,
        number => ResponseCode::Other(number),
    }
}

fn copy_record(out: &mut Answer, arguments: &mut Arguments<'_>) {
    let record = arguments.take_record();
    write_record(out, record.clone());
    drop(record);
}

fn write_record(out: &mut Answer, copy: Result<Record, ProtoError>) {
    match copy {
        Ok(copy) => {
            out.put(&RecordText(&copy));
            drop(copy);
        }
        Err(error) => out.fail(error),
    }
}

fn copy_data(out: &mut Answer, arguments: &mut Arguments<'_>) {
    let rdata = arguments.take_data();
    write_data(out, rdata.clone());
    drop(rdata);
}

fn write_data(out: &mut Answer, copy: Result<RData, ProtoError>) {
    match copy {
        Ok(copy) => {
            out.put(&DataText(&copy));
            drop(copy);
        }
        Err(error) => out.fail(error),
    }
}

/// Writes whether the copy of a kind of denial is equal to it.
fn copy_kind(out: &mut Answer, arguments: &mut Arguments<'_>) {
    let kind = NxProofKind::Nsec3 {
        iterations: arguments.take_short(),
        algorithm: arguments.take_octet(),
        salt: Seq::from_vec(arguments.take_octets()),
        opt_out: true,
    };
    out.compare(&kind, kind.clone());
}

/// The octets of a list of these.
fn copied_octets(arguments: &mut Arguments<'_>) -> Result<Vec<u8>, ProtoError> {
    let octets = arguments.take_octets();
    Seq::from_slice(arguments.alloc, octets.as_slice())?.into_vec()
}
