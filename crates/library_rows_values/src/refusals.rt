//! Makes refusals, prints them, and takes them apart.

use crate::records::code_of;
use crate::write::Answer;
use library_rows_arguments::Arguments;
use line_text::TextError;
use std::alloc::AllocError;
use std::io;
use zone_handler::{LookupError, NetError, NoRecords};
use zone_proto::{ProtoError, ResponseCode, SoaRecord};

/// Makes a refusal: it is printed, or taken apart.
pub fn make_refusal_call(out: &mut Answer, verb: &str, arguments: &mut Arguments<'_>) {
    match verb {
        "refusal" => write_refusal(out, arguments.text),
        "refused" => write_negative(out, LookupError::from(code_of(arguments.take_short()))),
        _ => write_negative(out, negative(arguments)),
    }
}

/// Writes the refusal that a word stands for, as what refuses first is converted to it.
fn write_refusal(out: &mut Answer, word: &str) {
    match word {
        "count" => out.value(LookupError::BadQueryCount(2)),
        "code" => out.value(LookupError::from(ResponseCode::Other(23))),
        "message" => out.value(LookupError::from(NetError::from("no route"))),
        "no-records" => out.value(LookupError::from(NetError::NoRecordsFound(no_records()))),
        "long-name" => out.value(LookupError::from(ProtoError::NameTooLong)),
        "file" => out.value(LookupError::from(io::Error::from(io::ErrorKind::NotFound))),
        "memory" => out.value(LookupError::from(ProtoError::Memory)),
        word => write_other_refusal(out, word),
    }
}

fn write_other_refusal(out: &mut Answer, word: &str) {
    match word {
        "hash" => out.value(NetError::from(ProtoError::Hash)),
        "allocation" => out.value(ProtoError::from(AllocError)),
        "label" => out.show(&TextError::from(ProtoError::EmptyLabel)),
        _ => out.show(&TextError::from(ProtoError::Memory)),
    }
}

/// A response without records.
fn no_records() -> NoRecords {
    NoRecords {
        soa: None,
        authorities: None,
        response_code: ResponseCode::NoError,
    }
}

/// The negative response of a code, with the SOA and the records of the authority that were read.
fn negative(arguments: &mut Arguments<'_>) -> LookupError {
    LookupError::from(NetError::NoRecordsFound(NoRecords {
        soa: arguments.soa.take(),
        authorities: Some(arguments.take_sections().authorities),
        response_code: code_of(arguments.take_short()),
    }))
}

/// Writes whether a refusal says that a name isn't there or that no records were found, how many records of the authority it
/// has, and the serial of its SOA.
fn write_negative(out: &mut Answer, error: LookupError) {
    write_denied(out, &error);
    write_soa(out, error.into_soa());
}

fn write_denied(out: &mut Answer, error: &LookupError) {
    out.say("denies: ");
    out.hold(error.is_nx_domain());
    out.say(", no records: ");
    out.hold(error.is_no_records_found());
    out.say(", ");
    match error.authorities() {
        Some(records) => out.put(&records.len()),
        None => out.say("no"),
    }
    out.say(" authorities, ");
}

fn write_soa(out: &mut Answer, soa: Option<Box<SoaRecord>>) {
    match soa {
        Some(soa) => {
            out.say("serial ");
            out.put(&soa.soa.serial);
            drop(soa);
        }
        None => out.say("no SOA"),
    }
}
