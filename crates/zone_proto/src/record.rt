//! Resource records (RFC 1035 section 3.2.1).
ghost use Rattle.std.specs.Prelude.{◌≡◌, IfOk, IsOkUnless, map};
ghost use Rattle.std.specs.Cmp.{partial_equiv_from_equiv};
ghost use Rattle.zone_proto.specs.Data.{type_of};
ghost use Rattle.zone_proto.specs.Records.{same_record};
ghost use Rattle.zone_proto.specs.DataEquality.{same_record_equiv};
ghost use Rattle.zone_proto.specs.Results.{IsCopy};
ghost use Rattle.zone_proto.specs.Sets.{record_under};

use crate::dns_class::DNSClass;
use crate::error::ProtoError;
use crate::name::Name;
use crate::rdata::RData;
use crate::record_type::RecordType;
use std::alloc::Global;

/// A record. Two records are equal by owner, class, type and data; the TTL is left aside.
#[derive(Debug, Drop)]
pub struct Record {
    /// The owner name.
    pub name: Name,
    /// The class.
    pub dns_class: DNSClass,
    /// How long the record may be kept, in seconds.
    pub ttl: u32,
    /// The data, which tell the type.
    pub rdata: RData,
}

impl PartialEq for Record {
    ghost eq = { same_record };

    ghost laws = { partial_equiv_from_equiv same_record_equiv };

    fn eq(&self, other: &Record) -> bool {
        self.name == other.name && self.dns_class == other.dns_class && self.rdata == other.rdata
    }
}

impl Eq for Record {
    ghost laws = { same_record_equiv };
}

impl Record {
    /// A record of class IN. Doesn't allocate.
    pub fn from_rdata(name: Name, ttl: u32, rdata: RData) -> Record
        ensures { result
            ≡ record { name = name; dns_class = DNSClass.IN; ttl = ttl; rdata = rdata } }
    {
        Record {
            name,
            dns_class: DNSClass::IN,
            ttl,
            rdata,
        }
    }

    /// The type of the record's data.
    pub fn record_type(&self) -> RecordType
        ensures { result.0 ≡ type_of self.now.rdata }
    {
        self.rdata.record_type()
    }

    /// A copy of the record: identical in all parts, the case of letters in names and the TTL too. `Memory` where none
    /// is found.
    pub fn clone(&self) -> Result<Record, ProtoError>
        ensures { IsCopy result self.now }
    {
        Ok(Record {
            name: self.name.clone()?,
            dns_class: self.dns_class,
            ttl: self.ttl,
            rdata: self.rdata.clone()?,
        })
    }
}

/// Copies of these records in their order, in a list that has room for these alone.
pub(crate) fn clone_records(alloc: Global, records: &[Record]) -> Result<Vec<Record>, ProtoError>
    ensures ok { IfOk result (λ v. v.items ≡ records.now) }
    ensures err { IsOkUnless result ProtoError.Memory }
{
    let mut copies = Vec::with_capacity(alloc, records.len())?;
    for stored in records {
        copies.push(stored.clone()?)?;
    }
    Ok(copies)
}

/// The same of class IN, under another owner and with this TTL.
pub(crate) fn clone_records_under(
    alloc: Global,
    records: &[Record],
    owner: &Name,
    ttl: u32,
) -> Result<Vec<Record>, ProtoError>
    ensures ok { IfOk result (λ v. v.items ≡ map (record_under owner.now ttl) records.now) }
    ensures err { IsOkUnless result ProtoError.Memory }
{
    let mut copies = Vec::with_capacity(alloc, records.len())?;
    for stored in records {
        copies.push(Record::from_rdata(owner.clone()?, ttl, stored.rdata.clone()?))?;
    }
    Ok(copies)
}
