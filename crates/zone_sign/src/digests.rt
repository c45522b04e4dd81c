//! The DS records of a zone's keys, for its parent (RFC 4034 section 5).

use crate::keys::read_keys;
use crate::reading::read_zone_of;
use crate::wanted::Wanted;
use host_texts::refuse;
use std::io;
use std::io::{BufWriter, Write};
use zone_file_writer::MasterText;
use zone_keys::{ds_data, signs_keys};
use zone_proto::{DNSKEY, LowerName, Name, OtherData, ProtoError, RData, Record, RecordType};

/// The TTL of what is written, in seconds; the parent zone uses its own.
const TTL: u32 = 86400;

/// Writes a DS record with digest type 2 (RFC 4509) for each key that signs the keys of the zone. None if that fails, which is
/// reported.
pub fn write_digests<E: Write>(rt: &HostRuntime, wanted: &Wanted<'_>, fault: &mut E) -> Option<()> {
    let alloc = rt.alloc();
    let loaded = read_zone_of(rt, wanted, fault)?;
    let keys = read_keys(rt, wanted, &loaded.origin, fault)?;
    let Ok(mut output) = BufWriter::new(alloc, io::writer(rt)) else {
        return refuse(fault, wanted.file, &"out of memory");
    };
    for key in keys.iter() {
        if !signs_keys(keys.as_slice(), key) {
            continue;
        }
        let record = match ds_record(&loaded.origin, key) {
            Ok(Some(record)) => record,
            Ok(None) => return refuse(fault, wanted.file, &"a key is too long for a record"),
            Err(_) => return refuse(fault, wanted.file, &"out of memory"),
        };
        let Ok(()) = write!(output, "{}\n", MasterText(alloc, &record)) else {
            return refuse(fault, wanted.file, &"write failed");
        };
    }
    match output.flush() {
        Ok(()) => Some(()),
        Err(_) => refuse(fault, wanted.file, &"write failed"),
    }
}

/// The DS record of a key (RFC 4034 section 5.1). None if the key is too long for a record.
fn ds_record(origin: &LowerName, key: &DNSKEY) -> Result<Option<Record>, ProtoError> {
    if key.public_key.as_slice().len() > 65531 {
        return Ok(None);
    }
    let Some(data) = OtherData::new(RecordType::DS, ds_data(origin, key)?) else {
        return Ok(None);
    };
    let owner = Name::from(origin.clone()?);
    Ok(Some(Record::from_rdata(owner, TTL, RData::Other(data))))
}
