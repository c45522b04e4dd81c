//! Signing a zone: what has to be signed is written, the signatures are read, and the zone is written.
ghost use Rattle.std.specs.Prelude.{◌≡◌, IfSome};
ghost use Rattle.zone_map.specs.Zones.{IsZone};

use crate::digesting::{place_digest, plan_digest};
use crate::keeping::{keep_standing, write_standing};
use crate::keys::read_keys;
use crate::reading::read_zone_of;
use crate::wanted::{Mode, Wanted, ZoneDigest};
use host_texts::refuse;
use std::alloc::{AllocError, Global};
use std::io;
use std::io::{BufWriter, Read, Write};
use zone_builder::Loaded;
use zone_map::RecordMap;
use zone_planner::{Request, make_plan, planned_by_flags};
use zone_planning::{Plan, PlanFault, finish, push_end, push_frames, read_signatures};
use zone_printing::MasterZoneText;
use zone_proto::{DNSKEY, LowerName, ProtoError, RecordType, RrKey};

/// Writes what has to be signed, and unless only that is wanted reads the signatures and writes the zone. None if that fails, which is
/// reported.
pub fn sign<E: Write>(rt: &HostRuntime, wanted: &Wanted<'_>, fault: &mut E) -> Option<()> {
    let alloc = rt.alloc();
    let Planned { plan, apex } = if wanted.zone_digest == ZoneDigest::Renewed {
        plan_digest(rt, wanted, fault)?
    } else {
        plan_zone(rt, wanted, fault)?
    };
    let Ok(mut output) = BufWriter::new(alloc, io::writer(rt)) else {
        return refuse(fault, wanted.file, &"out of memory");
    };
    let frames = if wanted.mode == Mode::Standing {
        write_standing(alloc, &mut output, &plan.records)
    } else {
        write_plan(alloc, &mut output, &plan.records)
    };
    written(frames, wanted, fault)?;
    if wanted.mode != Mode::Sign {
        return Some(());
    }
    let records = signed(rt, wanted, plan, fault)?;
    match write_zone(alloc, &mut output, &apex, &records) {
        Ok(()) => Some(()),
        Err(_) => refuse(fault, wanted.file, &"write failed"),
    }
}

/// Reports why something wasn't written, and gives None then.
pub(crate) fn written<E: Write>(
    done: Result<(), Stop>,
    wanted: &Wanted<'_>,
    fault: &mut E,
) -> Option<()> {
    match done {
        Ok(()) => Some(()),
        Err(Stop::Plan(why)) => refuse(fault, wanted.file, &why),
        Err(Stop::Output) => refuse(fault, wanted.file, &"write failed"),
    }
}

/// A zone that is planned to be signed, and the key of its SOA.
#[derive(Drop)]
pub(crate) struct Planned {
    pub(crate) plan: Plan,
    pub(crate) apex: RrKey,
}

/// The zone in the file as it is planned to be signed, with the signatures of an old one that stay. None if it is refused, which is
/// reported.
fn plan_zone<E: Write>(rt: &HostRuntime, wanted: &Wanted<'_>, fault: &mut E) -> Option<Planned> {
    let mut loaded = read_zone_of(rt, wanted, fault)?;
    let keys = read_keys(rt, wanted, &loaded.origin, fault)?;
    let Ok(apex) = apex_of(&loaded.origin) else {
        return refuse(fault, wanted.file, &"out of memory");
    };
    if wanted.zone_digest == ZoneDigest::Placed {
        place_digest(wanted, &mut loaded, fault)?;
    }
    let planned = plan(rt.alloc(), wanted, loaded, keys, fault)?;
    let plan = keep_standing(rt, wanted, planned, &apex, fault)?;
    Some(Planned { plan, apex })
}

/// The key of the SOA of a zone.
pub(crate) fn apex_of(origin: &LowerName) -> Result<RrKey, ProtoError> {
    Ok(RrKey::new(origin.clone()?, RecordType::SOA))
}

/// The zone as it is planned to be signed. None if it is refused, which is reported.
fn plan<E: Write>(
    alloc: Global,
    wanted: &Wanted<'_>,
    loaded: Loaded,
    keys: Vec<DNSKEY>,
    fault: &mut E,
) -> Option<Plan>
    ensures { IfSome result (λ plan. IsZone plan.records) }
{
    let Ok(keys) = planned_by_flags(alloc, keys.as_slice(), wanted.asks_parent) else {
        return refuse(fault, wanted.file, &"out of memory");
    };
    let Ok(request) = request_of(wanted) else {
        return refuse(fault, wanted.file, &"out of memory");
    };
    match make_plan(alloc, loaded.origin, loaded.records, keys, &request) {
        Ok(planned) => Some(planned),
        Err(why) => refuse(fault, wanted.file, &why),
    }
}

/// How a zone is to be signed.
pub(crate) fn request_of(wanted: &Wanted<'_>) -> Result<Request, ProtoError> {
    Ok(Request {
        inception: wanted.inception,
        expiration: wanted.expiration,
        jitter: wanted.jitter,
        key_ttl: wanted.key_ttl,
        nx_proof_kind: wanted.nx_proof_kind.clone()?,
    })
}

/// The planned zone with the signatures that are read. None if they are refused, which is reported.
fn signed<E: Write>(
    rt: &HostRuntime,
    wanted: &Wanted<'_>,
    planned: Plan,
    fault: &mut E,
) -> Option<RecordMap>
    ensures { IfSome result IsZone }
{
    let alloc = rt.alloc();
    let mut octets = Vec::new(alloc);
    let Ok(_) = rt.reader().read_to_end(&mut octets) else {
        return refuse(fault, wanted.file, &"the signatures can't be read");
    };
    let signatures = match read_signatures(alloc, octets.as_slice()) {
        Ok(signatures) => signatures,
        Err(why) => return refuse(fault, wanted.file, &why),
    };
    match finish(alloc, planned, signatures.as_slice()) {
        Ok(records) => Some(records),
        Err(unfinished) => refuse(fault, wanted.file, &unfinished.fault),
    }
}

/// Why the frames aren't written.
#[derive(Drop)]
pub(crate) enum Stop {
    /// They can't be made.
    Plan(PlanFault),
    /// A write failed.
    Output,
}

impl From<PlanFault> for Stop {
    fn from(why: PlanFault) -> Stop {
        Stop::Plan(why)
    }
}

impl From<AllocError> for Stop {
    fn from(_: AllocError) -> Stop {
        Stop::Plan(PlanFault::Memory)
    }
}

impl From<io::Error> for Stop {
    fn from(_: io::Error) -> Stop {
        Stop::Output
    }
}

/// Writes the frames of a zone, and after them the end.
fn write_plan<W: Write>(alloc: Global, output: &mut W, records: &RecordMap) -> Result<(), Stop> {
    for (_, set) in records.iter() {
        let mut octets = Vec::new(alloc);
        push_frames(&mut octets, set)?;
        output.write_all(octets.as_slice())?;
    }
    let mut end = Vec::new(alloc);
    push_end(&mut end)?;
    output.write_all(end.as_slice())?;
    output.flush()?;
    Ok(())
}

/// Writes the zone.
fn write_zone<W: Write>(
    alloc: Global,
    output: &mut W,
    apex: &RrKey,
    records: &RecordMap,
) -> io::Result<()> {
    write!(output, "{}", MasterZoneText(alloc, apex, records))?;
    output.flush()
}
