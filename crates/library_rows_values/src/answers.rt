//! Makes answers, and takes them apart.

use crate::handlers::write_parts;
use crate::iterators::write_records;
use crate::texts::{write_section, write_sections};
use crate::write::Answer;
use library_rows_arguments::Arguments;
use zone_handler::{
    AuthLookup, AuthLookupIter, AxfrPolicy, AxfrRecords, LookupOptions, LookupRecords,
    LookupRecordsIter, ZoneTransfer,
};
use zone_proto::{Edns, EdnsFlags, RecordSet};

/// Makes an answer, and takes it apart.
pub fn make_answer_call(out: &mut Answer, verb: &str, arguments: &mut Arguments<'_>) {
    match verb {
        "section" => write_set_section(out, arguments),
        "answer" => write_sets_answer(out, arguments),
        "response" => take_apart(out, AuthLookup::Response(arguments.take_sections())),
        "parts" => write_transfer_parts(out, arguments),
        "edns" => write_options(out, arguments.text),
        _ => write_defaults(out),
    }
}

/// The section of the set of which a copy was put last to the others, the empty one if there is none.
pub fn take_section(arguments: &mut Arguments<'_>, options: LookupOptions) -> LookupRecords {
    match arguments.take_copy() {
        Some(set) => LookupRecords::new(options, set),
        None => LookupRecords::Empty,
    }
}

/// Writes a section that is handed over.
fn write_whole_section(out: &mut Answer, section: LookupRecords) {
    write_lent_section(out, &section);
    drop(section);
}

/// Writes a section, which is lent once by its call and once by a loop over it.
fn write_lent_section(out: &mut Answer, section: &LookupRecords) {
    let count = write_records(out, section.iter());
    out.put(&count);
    out.say(" records, empty: ");
    out.hold(section.was_empty());
    write_section(out, section.into_iter());
}

/// Writes the records that options lend of the current set, and its section.
fn write_set_section(out: &mut Answer, arguments: &mut Arguments<'_>) {
    let options = arguments.options();
    if let Some(set) = arguments.copies.last() {
        write_lent_set(out, options, set);
    }
    write_whole_section(out, take_section(arguments, options));
}

fn write_lent_set(out: &mut Answer, options: LookupOptions, set: &RecordSet) {
    let count = write_records(out, options.rrset_with_rrigs(set));
    out.put(&count);
    out.say(" lent, ");
}

/// Writes the answer of the sets that were collected, with the current one beside it, and what is left of it as it is taken
/// apart.
fn write_sets_answer(out: &mut Answer, arguments: &mut Arguments<'_>) {
    let options = arguments.options();
    let section = take_section(arguments, options);
    let answers = LookupRecords::many(options, arguments.take_copies());
    take_apart(out, AuthLookup::answers(answers, Some(section)));
}

/// Writes an answer as it is taken apart, and then its records.
fn take_apart(out: &mut Answer, mut answer: AuthLookup) {
    write_parts_of(out, &answer);
    write_taken(out, &mut answer);
    write_whole_section(out, answer.unwrap_records());
}

/// Writes an answer and its sections.
fn write_parts_of(out: &mut Answer, answer: &AuthLookup) {
    write_sections(out, answer);
    out.say(", empty: ");
    out.hold(answer.into_iter().next().is_none() && answer.was_empty());
    out.say(", authorities: ");
    write_if_there(out, answer.authorities());
}

/// Writes the additional section of an answer as it is taken, and what is left as it is taken once more.
fn write_taken(out: &mut Answer, answer: &mut AuthLookup) {
    out.say(", taken: ");
    write_section_if_any(out, answer.take_additionals());
    out.say(", left: ");
    write_if_there(out, answer.additionals());
    out.say(", taken again: ");
    write_section_if_any(out, answer.take_additionals());
    out.say(", records: ");
}

/// Writes what is lent of a section, if there is one.
fn write_if_there(out: &mut Answer, section: Option<LookupRecordsIter<'_>>) {
    match section {
        Some(section) => write_section(out, section),
        None => out.say("none"),
    }
}

/// Writes a section that was handed out, if there was one.
fn write_section_if_any(out: &mut Answer, section: Option<LookupRecords>) {
    match section {
        Some(section) => write_whole_section(out, section),
        None => out.say("none"),
    }
}

/// Writes a transfer of three parts: the current set, those that were collected, and the one that is kept.
fn write_transfer_parts(out: &mut Answer, arguments: &mut Arguments<'_>) {
    let options = arguments.options();
    let end_soa = take_section(arguments, LookupOptions::default());
    let start_soa = take_section(arguments, options);
    let records = middle_part(arguments, options);
    write_transfer(
        out,
        ZoneTransfer {
            start_soa,
            records,
            end_soa,
        },
    );
}

/// The sets that are left; where there are none and no signatures are wanted, a list of records.
fn middle_part(arguments: &mut Arguments<'_>, options: LookupOptions) -> AxfrRecords {
    if arguments.copies.is_empty() && !options.dnssec_ok {
        AxfrRecords::of_records(Vec::new(arguments.alloc))
    } else {
        AxfrRecords::new(options.dnssec_ok, arguments.take_copies())
    }
}

/// Writes the middle part of a transfer, all of it, and all of it again.
fn write_transfer(out: &mut Answer, transfer: ZoneTransfer) {
    write_lent_transfer(out, &transfer);
    write_parts(out, &transfer);
    drop(transfer);
}

fn write_lent_transfer(out: &mut Answer, transfer: &ZoneTransfer) {
    let count = write_records(out, (&transfer.records).into_iter());
    out.put(&count);
    out.say(" in the middle; ");
    let count = write_records(out, transfer.iter());
    out.put(&count);
    out.say(" in all; ");
}

/// Writes whether signatures are wanted, by the flag of a request's EDNS, which may not be there.
fn write_options(out: &mut Answer, word: &str) {
    let edns = Edns {
        flags: EdnsFlags {
            dnssec_ok: word == "yes",
        },
    };
    let options = LookupOptions::from_edns(if word == "none" { None } else { Some(&edns) });
    out.hold(options.dnssec_ok);
    out.say(", flag ");
    out.hold(edns.flags().dnssec_ok);
}

/// Writes what the defaults are.
fn write_defaults(out: &mut Answer) {
    let answer = AuthLookup::default();
    write_sections(out, &answer);
    out.say(", empty: ");
    out.hold(answer.is_empty());
    drop(answer);
    out.say(", ");
    write_whole_section(out, LookupRecords::default());
    out.say(", lend: ");
    let lend = AuthLookupIter::default().next().is_some();
    out.hold(lend || LookupRecordsIter::default().next().is_some());
    write_default_options(out);
}

fn write_default_options(out: &mut Answer) {
    out.say(", dnssec: ");
    out.hold(LookupOptions::default().dnssec_ok);
    out.say(", for dnssec: ");
    out.hold(LookupOptions::for_dnssec().dnssec_ok);
    out.say(", policy ");
    out.show(&AxfrPolicy::default());
}
