//! Updates of a signed zone of a server with keys, with signatures that are none.

use crate::access::KeyedServer;
use crate::updates::planned_text;
use compared_rows::read_octets;
use line_text::{HexText, TextError, Words, read_name};
use signed_updates::{SignedPlan, Unfinished, begin_signed_update, finish_signed_update};
use std::alloc::Global;
use update_denials::{Prepared, Signing};
use update_signing::SignedReply;
use zone_keeping::Span;
use zone_planner::{Request, planned_by_flags};
use zone_planning::{Plan, blank_number};
use zone_proto::{DNSKEY, LowerName, NxProofKind, Seq};

/// When signatures are made, when they end, and until when they have to hold, in seconds since 1970.
const MADE: u64 = 1_795_000_000;

const END: u64 = 1_797_000_000;

const HELD: u64 = 1_796_000_000;

/// The algorithm of the key, ECDSA by P-256 and SHA-256, whose keys and signatures have 64 octets (RFC 6605 section 4).
const ALGORITHM: u8 = 13;

/// What a server prepares of an update at a moment, where the zone of a name is signed by one key.
pub fn prepare_told(
    alloc: Global,
    server: &mut KeyedServer,
    mut words: Words<'_>,
) -> Result<String, TextError> {
    let now = words.take_u64()?;
    let origin = LowerName::from(read_name(alloc, &mut words)?);
    let message = read_octets(alloc, &mut words)?;
    words.end()?;
    let signing = signing(alloc)?;
    let mut out = Vec::new(alloc);
    let octets = message.as_slice();
    let (zones, access) = (&mut server.zones, &server.updates);
    let plan = begin_signed_update(
        alloc, zones, access, &origin, signing, now, true, octets, &mut out,
    )?;
    match plan {
        SignedPlan::Planned(planned) => planned_text(alloc, server, planned, out.as_slice()),
        SignedPlan::Signed(reply) => reply_text(alloc, server, origin, reply, out.as_slice()),
    }
}

/// What came of an update of the signed zone of an origin: how many signatures are to be made where it is prepared.
fn reply_text(
    alloc: Global,
    server: &mut KeyedServer,
    origin: LowerName,
    reply: SignedReply,
    octets: &[u8],
) -> Result<String, TextError> {
    let octets = HexText(octets);
    Ok(match reply {
        SignedReply::Refused(_) => format!(in alloc; "refused {octets}")?,
        SignedReply::Unsigned(_) => format!(in alloc; "unsigned {octets}")?,
        SignedReply::Unchanged => format!(in alloc; "unchanged {octets}")?,
        SignedReply::Prepared(prepared) => {
            let count = made_for(alloc, &prepared.plan)?.len();
            server.prepared = Some((origin, prepared));
            format!(in alloc; "{count} to sign {octets}")?
        }
    })
}

/// What comes of the update that was prepared last, once it is signed: it is planned, or why it isn't.
pub fn finish_told(alloc: Global, server: &mut KeyedServer) -> Result<String, TextError> {
    let Some((origin, prepared)) = server.prepared.take() else {
        return Ok(format!(in alloc; "nothing is prepared")?);
    };
    let signatures = made_for(alloc, &prepared.plan)?;
    finish(alloc, server, origin, prepared, signatures.as_slice())
}

/// The same by these signatures.
fn finish(
    alloc: Global,
    server: &mut KeyedServer,
    origin: LowerName,
    prepared: Prepared,
    signatures: &[Seq<u8>],
) -> Result<String, TextError> {
    match finish_signed_update(alloc, &server.zones, origin, prepared, signatures, true) {
        Ok(updated) => {
            server.planned = Some(updated);
            Ok(format!(in alloc; "signed")?)
        }
        Err(Unfinished::Uncommitted(uncommitted)) => {
            Ok(format!(in alloc; "{:?}", uncommitted.fault)?)
        }
        Err(Unfinished::Unjournaled(fault)) => Ok(format!(in alloc; "{fault:?}")?),
    }
}

/// How the zone is signed.
fn signing(alloc: Global) -> Result<Signing, TextError> {
    let mut keys = Vec::new(alloc);
    keys.push(DNSKEY {
        flags: 257,
        protocol: 3,
        algorithm: ALGORITHM,
        public_key: Seq::from_slice(alloc, &[1; 64])?,
    })?;
    Ok(Signing {
        keys: planned_by_flags(alloc, keys.as_slice(), false)?,
        request: Request {
            inception: MADE,
            expiration: END,
            jitter: 0,
            key_ttl: 60,
            nx_proof_kind: NxProofKind::Nsec,
        },
        span: Span {
            from: MADE,
            until: HELD,
        },
    })
}

/// As many signatures as are blank in a plan.
fn made_for(alloc: Global, plan: &Plan) -> Result<Vec<Seq<u8>>, TextError> {
    let mut signatures = Vec::new(alloc);
    for (_, set) in plan.records.iter() {
        for record in set.rrsigs() {
            if blank_number(record).is_some() {
                signatures.push(Seq::from_slice(alloc, &[7; 64])?)?;
            }
        }
    }
    Ok(signatures)
}
