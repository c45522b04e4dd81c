//! What a zone answers, asked of `zone_server`.
ghost use Rattle.std.specs.Prelude.{◌≡◌, [], ◌∷◌, IfOk, IfSome, IsTrue, OnOk, Some, option_map, drop, take, length, ◌+◌, ◌≤◌, ◌<◌};
ghost use Rattle.zone_response.specs.Queries.{Zone};
ghost use Rattle.zone_server.specs.declared.transport.Transport.TheVariants.{Udp};
ghost use Rattle.zone_server.specs.Limits.{limit_for};
ghost use Rattle.ready_table.specs.Ready.{AreReady, IsInside, IsReady};

use crate::limits::said_by;
use crate::table::ReadyTable;
use message_reading::{HEADER_OCTETS, Query, question_of, read_query};
use std::alloc::{AllocError, Global};
use zone_proto::{LowerName, RecordType};
use zone_server::{DATAGRAM_SIZE, ServedZones, Transport, answer, limit_for};

/// How the queries come that are asked at loading: over UDP, by a way that takes what the server sends.
pub(crate) const WAY: Transport = Transport::Udp {
    limit: DATAGRAM_SIZE,
};

/// Asks a zone, and puts its answer in place of the octets of `out`. The query that is answered, if the answer is to be kept:
/// no message over UDP had to be cut for it, and the zone is an authority for the name (RFC 1035 section 4.1.1). Fails only for lack
/// of memory.
pub(crate) fn ask<Z: ServedZones>(
    alloc: Global,
    zones: &Z,
    origin: &LowerName,
    message: &[u8],
    out: &mut Vec<u8>,
) -> Result<Option<Query>, AllocError>
    ensures { IfOk result (λ asked. IfSome asked (λ q. (z : Zone) → Z.zones zones.now ≡ z ∷ []
        → z.origin ≡ origin.now
        → IsReady z (limit_for (Udp 1232) q.extension) q out.new.items)) }
{
    let Ok(query) = read_query(alloc, message) else {
        return Ok(None);
    };
    if !is_inside(origin, &query)? {
        return Ok(None);
    }
    answer(alloc, zones, message, WAY, out)?;
    if is_kept(out.as_slice()) {
        Ok(Some(query))
    } else {
        Ok(None)
    }
}

/// Whether a zone answers a query whatever other zones there are, if none is nearer.
pub fn is_inside(origin: &LowerName, query: &Query) -> Result<bool, AllocError>
    ensures { IfOk result (λ inside. IsTrue inside → IsInside origin.now query.now) }
{
    if query.question.query_type == RecordType::DS {
        return Ok(false);
    }
    match LowerName::new(&query.question.name) {
        Ok(name) => Ok(origin.zone_of(&name)),
        Err(_) => Err(AllocError),
    }
}

/// Whether an answer is kept: TC is clear, and AA is set.
fn is_kept(octets: &[u8]) -> bool {
    match octets.get(2) {
        Some(flags) => *flags / 2 % 2 == 0 && *flags / 4 % 2 == 1,
        None => false,
    }
}

/// Keeps an answer to a query.
pub(crate) fn keep(
    alloc: Global,
    table: &mut ReadyTable,
    ready: &[u8],
    query: &Query,
) -> Result<(), AllocError>
    ensures { OnOk result ((z : Zone)
        → IsReady z (limit_for (Udp 1232) query.now.extension) query.now ready.now
        → AreReady z table.old → AreReady z table.new) }
{
    if ready.len() < HEADER_OCTETS {
        return Ok(());
    }
    let Ok(found) = question_of(alloc, ready, &ready[HEADER_OCTETS..]) else {
        return Err(AllocError);
    };
    let Some((_, behind)) = found else {
        return Ok(());
    };
    let count = (ready.len() - HEADER_OCTETS).saturating_sub(behind.len());
    table.keep(ready, count, limit_for(WAY, query), said_by(query))
}
