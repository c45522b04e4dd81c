//! Whether the sets of denial of the zones that records of zone files make are chains.

use crate::loading::loaded;
use crate::octets::octets_of;
use crate::plain_hash::{FIRST_OCTET, PlainHash, UNKNOWN, WHOLE};
use crate::zone::{error_line, read};
use alloc_failures::until_given;
use std::alloc::{AllocError, Global};
use zone_builder::Loaded;
use zone_proto::{NSEC3PARAM, Seq};
use zone_verify::{ChainFault, verify_nsec, verify_nsec3};

/// The answer to a row, which is a call, an origin and a zone file: `closed`, or why the zone's sets of denial are no chain; behind
/// `refused, then` where memory was refused before. The call `nsec` is of the chain of NSEC sets, `nsec3` of that of NSEC3 sets,
/// and `opt_out` of that of NSEC3 sets with the flag Opt-Out; `first_octet` and `unknown` are as `nsec3`, of other algorithms.
pub fn answer(alloc: Global, row: &str) -> Result<String, AllocError> {
    let (call, rest) = row.split_once(' ').unwrap_or((row, ""));
    let (origin, text) = rest.split_once(' ').unwrap_or((rest, ""));
    let text = octets_of(alloc, text)?;
    match read(alloc, origin, text.as_slice()) {
        Ok(records) => match loaded(alloc, origin, records.as_slice()) {
            Ok(loaded) => chain_answer(alloc, call, &loaded),
            Err(fault) => format!(in alloc; "no zone: {fault}"),
        },
        Err(error) => error_line(alloc, &error),
    }
}

/// What a call says of a zone, with a little more memory each time.
fn chain_answer(alloc: Global, call: &str, loaded: &Loaded) -> Result<String, AllocError> {
    match until_given(alloc, || verdict(alloc, call, loaded))? {
        None => format!(in alloc; "refused"),
        Some((0, verdict)) => told_verdict(alloc, "", verdict),
        Some((_, verdict)) => told_verdict(alloc, "refused, then ", verdict),
    }
}

fn told_verdict(
    alloc: Global,
    before: &str,
    verdict: Result<(), ChainFault>,
) -> Result<String, AllocError> {
    match verdict {
        Ok(()) => format!(in alloc; "{before}closed"),
        Err(fault) => format!(in alloc; "{before}{fault}"),
    }
}

/// That the sets of denial of a zone are a chain, or why they aren't; none if memory was refused.
fn verdict(alloc: Global, call: &str, loaded: &Loaded) -> Option<Result<(), ChainFault>> {
    match verified(alloc, call, loaded) {
        Err(ChainFault::Memory) => None,
        verdict => Some(verdict),
    }
}

fn verified(alloc: Global, call: &str, loaded: &Loaded) -> Result<(), ChainFault> {
    if call == "nsec" {
        return verify_nsec(&loaded.records, &loaded.origin);
    }
    let parameters = NSEC3PARAM {
        algorithm: algorithm_of(call),
        opt_out: call == "opt_out",
        iterations: 0,
        salt: Seq::new(alloc),
    };
    verify_nsec3(&loaded.records, &loaded.origin, &PlainHash, &parameters)
}

/// By which algorithm the names of a call are hashed.
fn algorithm_of(call: &str) -> u8 {
    match call {
        "first_octet" => FIRST_OCTET,
        "unknown" => UNKNOWN,
        _ => WHOLE,
    }
}
