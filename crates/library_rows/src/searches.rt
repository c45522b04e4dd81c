//! Makes the calls that search the zone.

use crate::signers::RowSigner;
use crate::state::State;
use crate::texts::write_chain;
use library_rows_arguments::Arguments;
use library_rows_values::{Answer, write_made_set, write_set};
use zone_handler::LookupOptions;
use zone_proto::{LowerName, RecordSet, RecordType};
use zone_store::{Found, InnerInMemory, Reads, Searches};

/// Makes a call that searches the zone.
pub fn make_search_call(
    out: &mut Answer,
    state: &mut State,
    verb: &str,
    arguments: &mut Arguments<'_>,
) {
    let name = arguments.take_lower();
    match verb {
        "any" => choose(out, state.zone.inner(), &name),
        "search" => search(out, state, &name, arguments),
        "chase" => chase(out, state.zone.inner(), &name, arguments),
        "counts" => write_counts(out, &InnerInMemory::new(arguments.alloc)),
        "made" => write_made(out, arguments.take_copy()),
        _ => add(out, state.zone.inner(), &name, arguments),
    }
}

/// Writes how counts and a map by itself begin.
fn write_counts(out: &mut Answer, map: &InnerInMemory<RowSigner>) {
    let mut reads = Reads::default();
    reads.add_one();
    out.put(&reads.count());
    out.say(" read, ");
    out.put(&Searches::new().count());
    out.say(" searched, ");
    out.put(&map.record_map().as_map().len());
    out.say(" sets, ");
    out.put(&map.signers().len());
    out.say(" signers");
}

/// Writes a set as one that a search made, which is lent, and then handed out.
fn write_made(out: &mut Answer, set: Option<RecordSet>) {
    match set {
        Some(set) => lend_and_give(out, Found::Made(set)),
        None => out.say("no current set"),
    }
}

fn lend_and_give(out: &mut Answer, found: Found<'_>) {
    write_set(out, found.set());
    out.say(" | ");
    write_made_set(out, found.into_set());
}

/// Chooses a type in place of ANY.
fn choose(out: &mut Answer, inner: &InnerInMemory<RowSigner>, name: &LowerName) {
    match inner.replace_any(name) {
        Ok(chosen) => {
            out.put(&chosen);
            out.say(" ");
            out.put(&chosen.0);
        }
        Err(error) => out.fail(error),
    }
}

/// Searches for a set, which has to be counted, and copies what is found.
fn search(out: &mut Answer, state: &mut State, name: &LowerName, arguments: &mut Arguments<'_>) {
    let before = state.searches.count();
    let (record_type, options) = (arguments.take_type(), arguments.options());
    let inner = state.zone.inner();
    match inner.inner_lookup(name, record_type, options, &mut state.searches) {
        Ok(found) => write_found(out, found),
        Err(error) => out.fail(error),
    }
    if state.searches.count() != before.saturating_add(1) {
        out.say(", a search that isn't counted");
    }
}

/// Writes a copy of what is found.
fn write_found(out: &mut Answer, found: Option<Found<'_>>) {
    match found {
        Some(found) => write_made_set(out, found.into_set()),
        None => out.say("nothing"),
    }
}

/// Follows the aliases from the set that is found.
fn chase(
    out: &mut Answer,
    inner: &InnerInMemory<RowSigner>,
    name: &LowerName,
    arguments: &mut Arguments<'_>,
) {
    let mut searches = Searches::new();
    let (record_type, options) = (arguments.take_type(), arguments.options());
    match inner.inner_lookup(name, record_type, options, &mut searches) {
        Ok(Some(first)) => chase_from(out, inner, name, record_type, options, first),
        Ok(None) => out.say("nothing"),
        Err(error) => out.fail(error),
    }
}

fn chase_from<'z>(
    out: &mut Answer,
    inner: &'z InnerInMemory<RowSigner>,
    name: &LowerName,
    record_type: RecordType,
    options: LookupOptions,
    first: Found<'z>,
) {
    let mut searches = Searches::new();
    match inner.chase_cnames(name, first, record_type, options, &mut searches) {
        Ok(chain) => {
            write_chain(out, searches.count(), chain.as_slice());
            drop(chain);
        }
        Err(error) => out.fail(error),
    }
}

/// The additional sets for a question, from a next name on.
fn add(
    out: &mut Answer,
    inner: &InnerInMemory<RowSigner>,
    name: &LowerName,
    arguments: &mut Arguments<'_>,
) {
    let mut searches = Searches::new();
    let (next, record_type) = (arguments.take_lower(), arguments.take_type());
    let options = arguments.options();
    match inner.additional_search(name, record_type, next, record_type, options, &mut searches) {
        Ok(sets) => write_additionals(out, searches.count(), sets),
        Err(error) => out.fail(error),
    }
}

/// Writes how many names were searched, and the additional sets if there are any.
fn write_additionals(out: &mut Answer, searched: u64, sets: Option<Vec<Found<'_>>>) {
    match sets {
        Some(sets) => {
            write_chain(out, searched, sets.as_slice());
            drop(sets);
        }
        None => {
            out.put(&searched);
            out.say(" searched, None");
        }
    }
}
