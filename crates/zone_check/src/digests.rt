//! What is told of the digests of a zone.
ghost use Rattle.std.specs.Prelude.{◌≡◌, None, IfSome};
ghost use Rattle.std.specs.List.{list_all};
ghost use Rattle.zone_proto.specs.declared.record.Record.{Record as RecordValue};
ghost use Rattle.zone_proto.specs.Keys.{key};
ghost use Rattle.zone_lookup.specs.StartOfAuthority.{serial as serial_at};
ghost use Rattle.zone_check.specs.Digests.{are_digests_right, is_digest_right};

use host_texts::{tell, tell_at};
use std::alloc::Global;
use std::fmt;
use std::io::Write;
use zone_builder::Loaded;
use zone_digest::{DigestFault, ZONEMD, digest_fault};
use zone_lookup::start_of_authority::first_soa;
use zone_planning::PlanFault;
use zone_proto::{LowerName, RData, Record, RecordType, RrKey};
use zone_texts::Sources;

/// Tells what is wrong with the ZONEMD records of a zone, and gives whether nothing is (RFC 8976 section 4). None if it can't be told,
/// and why.
pub fn tell_digests<E: Write>(
    alloc: Global,
    sources: &Sources,
    loaded: &Loaded,
    fault: &mut E,
) -> Option<bool>
    ensures { IfSome result
        (λ right. right ≡ are_digests_right loaded.now.origin loaded.now.records) }
{
    let Some(serial) = serial_of(loaded) else {
        return no_memory(fault);
    };
    let Some(own) = key_of(loaded, ZONEMD) else {
        return no_memory(fault);
    };
    match loaded.records.get(&own) {
        Some(set) => tell_set(alloc, sources, loaded, serial, set.as_slice(), fault),
        None => Some(true),
    }
}

/// Tells that there isn't enough memory.
fn no_memory<E: Write>(fault: &mut E) -> Option<bool>
    ensures { result ≡ None }
{
    tell(fault, b"out of memory\n");
    None
}

/// The key of a set of the origin. None if there isn't enough memory.
fn key_of(loaded: &Loaded, record_type: RecordType) -> Option<RrKey>
    ensures { IfSome result (λ own. own ≡ key loaded.now.origin record_type.0) }
{
    match loaded.origin.clone() {
        Ok(origin) => Some(RrKey::new(origin, record_type)),
        Err(_) => None,
    }
}

/// The serial of the zone, 0 without an SOA. None if there isn't enough memory.
fn serial_of(loaded: &Loaded) -> Option<u32>
    ensures { IfSome result (λ n. n ≡ serial_at loaded.now.records loaded.now.origin) }
{
    let start = key_of(loaded, RecordType::SOA)?;
    let Some(set) = loaded.records.get(&start) else {
        return Some(0);
    };
    match first_soa(set) {
        Some(soa) => Some(soa.serial),
        None => Some(0),
    }
}

/// Tells what is wrong with ZONEMD records, and gives whether nothing is.
fn tell_set<E: Write>(
    alloc: Global,
    sources: &Sources,
    loaded: &Loaded,
    serial: u32,
    set: &[Record],
    fault: &mut E,
) -> Option<bool>
    requires { serial ≡ serial_at loaded.now.records loaded.now.origin }
    ensures { IfSome result (λ right. right ≡ list_all (λ (r : RecordValue).
        is_digest_right loaded.now.origin loaded.now.records set.now r.rdata) set.now) }
{
    let mut is_right = true;
    for given in set {
        if !tell_digest(alloc, sources, loaded, serial, set, &given.rdata, fault)? {
            is_right = false;
        }
    }
    Some(is_right)
}

/// Tells what is wrong with a ZONEMD record, and gives whether nothing is.
fn tell_digest<E: Write>(
    alloc: Global,
    sources: &Sources,
    loaded: &Loaded,
    serial: u32,
    set: &[Record],
    rdata: &RData,
    fault: &mut E,
) -> Option<bool>
    requires { serial ≡ serial_at loaded.now.records loaded.now.origin }
    ensures { IfSome result (λ right. right
        ≡ is_digest_right loaded.now.origin loaded.now.records set.now rdata.now) }
{
    let RData::Other(other) = rdata else {
        return Some(true);
    };
    let (origin, records) = (&loaded.origin, &loaded.records);
    match digest_fault(alloc, origin, records, serial, set, other.octets()) {
        Ok(None) => Some(true),
        Ok(Some(what)) => {
            tell_at(fault, sources, None, &WrongDigest { origin, what });
            Some(false)
        }
        Err(PlanFault::Memory) => no_memory(fault),
        Err(_) => {
            tell(
                fault,
                b"the zone has no digest, since not all of its data can be octets of a message\n",
            );
            None
        }
    }
}

/// What is wrong with a ZONEMD record of an origin.
#[derive(Drop)]
struct WrongDigest<'z> {
    origin: &'z LowerName,
    what: DigestFault,
}

impl fmt::Display for WrongDigest<'_> {
    fn fmt<W: fmt::Write>(&self, f: &mut fmt::Formatter<W>) -> fmt::Result {
        write!(f, "{} ZONEMD {}", self.origin, self.what)
    }
}
