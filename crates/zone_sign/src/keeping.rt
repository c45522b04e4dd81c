//! Signatures of an earlier version of the zone that stay.
ghost use Rattle.std.specs.Prelude.{◌≡◌, IfSome};
ghost use Rattle.zone_map.specs.Zones.{IsZone};

use crate::reading::read_signed_zone;
use crate::signing::Stop;
use crate::wanted::Wanted;
use host_texts::{read_file, refuse};
use std::alloc::Global;
use std::io::Write;
use zone_keeping::{Span, keep, push_standing, push_standing_end};
use zone_map::RecordMap;
use zone_planning::{Plan, read_signatures};
use zone_proto::{RrKey, Seq, first_serial, is_newer};

/// A plan with the signatures that stay, of the old zone that is named, if one is. None if that is refused, which is reported.
pub fn keep_standing<E: Write>(
    rt: &HostRuntime,
    wanted: &Wanted<'_>,
    planned: Plan,
    apex: &RrKey,
    fault: &mut E,
) -> Option<Plan>
    requires { IsZone planned.records }
    ensures { IfSome result (λ plan. IsZone plan.records) }
{
    let Some(file) = wanted.old else {
        return Some(planned);
    };
    let wrong = read_wrong(rt, wanted, fault)?;
    let old = read_signed_zone(rt, file, &apex.name, wrong.as_slice(), fault)?;
    if !is_newer(
        serial_at(&planned.records, apex),
        serial_at(&old.records, apex),
    ) {
        return refuse(
            fault,
            wanted.file,
            &"the next serial isn't greater than that of the old zone",
        );
    }
    let span = Span {
        from: wanted.inception,
        until: wanted.inception.saturating_add(wanted.again),
    };
    let mut planned = planned;
    match keep(rt.alloc(), &mut planned, &apex.name, &old.records, &span) {
        Ok(()) => Some(planned),
        Err(why) => refuse(fault, wanted.file, &why),
    }
}

/// The signatures of the old zone that don't stay, in ascending order. None if they can't be read, which is reported.
fn read_wrong<E: Write>(
    rt: &HostRuntime,
    wanted: &Wanted<'_>,
    fault: &mut E,
) -> Option<Vec<Seq<u8>>> {
    let alloc = rt.alloc();
    let Some(file) = wanted.wrong else {
        return Some(Vec::new(alloc));
    };
    let mut octets = Vec::new(alloc);
    read_file(rt, file, &mut octets, fault)?;
    match read_signatures(alloc, octets.as_slice()) {
        Ok(mut signatures) => {
            signatures.sort_unstable();
            Some(signatures)
        }
        Err(why) => refuse(fault, file, &why),
    }
}

/// The serial of the zone whose SOA stands under a key, 0 without one.
fn serial_at(records: &RecordMap, apex: &RrKey) -> u32 {
    let Some(set) = records.get(apex) else {
        return 0;
    };
    first_serial(set.as_slice()).unwrap_or(0)
}

/// Writes the signatures that stay, with what they are made of, and after them the end.
pub(crate) fn write_standing<W: Write>(
    alloc: Global,
    output: &mut W,
    records: &RecordMap,
) -> Result<(), Stop> {
    for (_, set) in records.iter() {
        let mut octets = Vec::new(alloc);
        push_standing(&mut octets, set)?;
        output.write_all(octets.as_slice())?;
    }
    let mut end = Vec::new(alloc);
    push_standing_end(&mut end)?;
    output.write_all(end.as_slice())?;
    output.flush()?;
    Ok(())
}
