//! All messages of an answer, of one step in place of several.
ghost use Rattle.std.specs.Prelude.{◌≤◌, IfOk};
ghost use Rattle.condensed_answers.specs.Answers.{GivesCondensed, IsInPlace};

use condensed_steps::condensed;
use message_reading::Query;
use shown_zones::ZoneStep;
use std::alloc::{AllocError, Global};
use std::slice::from_ref;
use step_answers::step_messages;
use zone_proto::{LowerName, RecordSet};

/// The messages of steps of the zone of an origin as the answer to a query for its changes, between two SOA records of the newest version (RFC 1995
/// section 4), as `step_messages` of `step_answers` makes them: of two steps and more the one that they are condensed into (section 5), so that
/// nothing is sent that was added and deleted again meanwhile. `size` is how many octets the server takes in one datagram, for the OPT record,
/// and `limit` how many a message may have, which is 282 at least.
///
/// None where a record can't be sent, since no octets are its data, or no message has room for it: then the whole zone has to go out. Fails only for lack
/// of memory.
#[tactic(auto, using(crate::proofs::Giving::gives_one, crate::proofs::Giving::gives_all))]
pub fn condensed_messages(
    alloc: Global,
    query: &Query,
    origin: &LowerName,
    soa: &RecordSet,
    steps: &[ZoneStep],
    size: u16,
    limit: u16,
) -> Result<Option<Vec<Vec<u8>>>, AllocError>
    requires { 282 ≤ limit }
    ensures { IfOk result
        (GivesCondensed query.now origin.now soa.now steps.now size limit) }
{
    match one_in_place(alloc, origin, steps)? {
        Some(step) => step_messages(alloc, query, soa, from_ref(&step), size, limit),
        None => step_messages(alloc, query, soa, steps, size, limit),
    }
}

/// The step that goes out in place of steps, where these are two or more.
#[tactic(auto, using(crate::proofs::Giving::none_in_place, crate::proofs::Giving::one_in_place))]
fn one_in_place(
    alloc: Global,
    origin: &LowerName,
    steps: &[ZoneStep],
) -> Result<Option<ZoneStep>, AllocError>
    ensures { IfOk result (IsInPlace origin.now steps.now) }
{
    if steps.len() < 2 {
        return Ok(None);
    }
    match condensed(alloc, origin, steps) {
        Ok(step) => Ok(step),
        Err(_) => Err(AllocError),
    }
}
