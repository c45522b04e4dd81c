//! Makes the calls on what the zone denies by, and on the indexes that these are found by.

use crate::signers::RowSigner;
use crate::state::{State, replace};
use library_rows_arguments::{Arguments, RowHash};
use library_rows_values::{Answer, write_set, write_set_if_any};
use std::alloc::AllocError;
use zone_handler::{LookupError, Nsec3QueryInfo, ZoneHandler};
use zone_proto::{LowerName, RecordSet, RecordType};
use zone_store::{DenialOwners, InnerInMemory, Reads};

/// Makes a call on what the zone denies by.
pub fn make_denial_call(
    out: &mut Answer,
    state: &mut State,
    verb: &str,
    arguments: &mut Arguments<'_>,
) {
    match verb {
        "hash" => replace(out, &mut state.hash, arguments.take_hash()),
        "owners" => write_owners(out, state.zone.inner(), arguments.take_type()),
        "denying" => out.put(&count_owners(state.zone.inner(), arguments.take_type())),
        "proof" | "expanded proof" => write_proof(out, state, verb, arguments),
        verb => find(out, state.zone.inner(), verb, &arguments.take_lower()),
    }
}

/// Makes a call that reads an index from a name on.
fn find(out: &mut Answer, inner: &InnerInMemory<RowSigner>, verb: &str, name: &LowerName) {
    match verb {
        "closest" => write_closest(out, inner, name),
        "counted" => write_counted(out, inner, name),
        _ => write_exists(out, inner, name),
    }
}

/// Writes the closest NSEC set.
fn write_closest(out: &mut Answer, inner: &InnerInMemory<RowSigner>, name: &LowerName) {
    match inner.closest_nsec(name) {
        Ok(set) => write_set_if_any(out, set),
        Err(error) => out.fail(error),
    }
}

/// Writes how many owners are read for the closest NSEC set, and the set.
fn write_counted(out: &mut Answer, inner: &InnerInMemory<RowSigner>, name: &LowerName) {
    let mut reads = Reads::new();
    match inner.closest_nsec_counted(name, &mut reads) {
        Ok(set) => write_read(out, reads.count(), set),
        Err(error) => out.fail(error),
    }
}

fn write_read(out: &mut Answer, read: u64, set: Option<&RecordSet>) {
    out.put(&read);
    match set {
        Some(set) => {
            out.say(" read | ");
            write_set(out, set);
        }
        None => out.say(" read, None"),
    }
}

/// Writes whether a name is there, and how many keys are read for that.
fn write_exists(out: &mut Answer, inner: &InnerInMemory<RowSigner>, name: &LowerName) {
    let mut reads = Reads::default();
    match inner.owns_at_or_below(name, &mut reads) {
        Ok(owns) => {
            out.put(&owns);
            out.say(", ");
            out.put(&reads.count());
            out.say(" read");
        }
        Err(error) => out.fail(error),
    }
}

/// Writes how many names own sets of a type of denial, and the names, which are lent by a copy of the iterator.
pub fn write_owners(out: &mut Answer, inner: &InnerInMemory<RowSigner>, record_type: RecordType) {
    let owners = inner.denial_owners(record_type);
    let count = count_owners(inner, record_type);
    out.put(&count);
    out.say(" owners");
    if owners.size_hint().0 > count {
        out.say(" of more");
    }
    let copy: Result<DenialOwners<'_>, AllocError> = owners.clone();
    match copy {
        Ok(copy) => list_owners(out, copy),
        Err(_) => out.say("error: out of memory"),
    }
}

fn list_owners(out: &mut Answer, owners: DenialOwners<'_>) {
    for owner in owners {
        out.say(" | ");
        out.put(owner);
    }
}

/// How many names own sets of a type of denial.
fn count_owners(inner: &InnerInMemory<RowSigner>, record_type: RecordType) -> usize {
    let mut count = 0usize;
    for _ in inner.denial_owners(record_type) {
        count = count.saturating_add(1);
    }
    count
}

/// Writes how many names are hashed for the NSEC3 sets that deny a name, and the owners of the sets; or of those that a
/// wildcard's answer needs. The hash is the one beside the zone, without salt and iterations.
fn write_proof(out: &mut Answer, state: &State, verb: &str, arguments: &mut Arguments<'_>) {
    let name = arguments.take_lower();
    let info = Nsec3QueryInfo {
        qname: &name,
        qtype: arguments.take_type(),
        has_wildcard_match: verb == "expanded proof",
        algorithm: 1,
        salt: b"",
        iterations: 0,
    };
    prove(
        out,
        state.zone.inner(),
        info,
        state.zone.origin(),
        &state.hash,
    );
}

fn prove(
    out: &mut Answer,
    inner: &InnerInMemory<RowSigner>,
    info: Nsec3QueryInfo<'_>,
    origin: &LowerName,
    hash: &RowHash,
) {
    match inner.proof(info, origin, hash) {
        Ok(sets) => write_names(out, hash.calls.take_made(), sets.as_slice()),
        Err(error) => write_refused_proof(out, hash.calls.take_made(), error),
    }
}

/// Writes how many names were hashed, and the owners of the sets.
fn write_names(out: &mut Answer, hashed: u64, sets: &[&RecordSet]) {
    out.put(&hashed);
    out.say(" hashed");
    for set in sets {
        out.say(" | ");
        out.put(set.name());
    }
}

/// Writes why there are no sets, and how many names were hashed where memory was found.
fn write_refused_proof(out: &mut Answer, hashed: u64, error: LookupError) {
    let lacks_memory = matches!(error, LookupError::Memory);
    out.fail(error);
    if !lacks_memory {
        out.say(", ");
        out.put(&hashed);
        out.say(" hashed");
    }
}
