//! The values of an SOA record, and those of the record.
use crate::dns_class::DNSClass;
use crate::name::Name;
use crate::rdata::SOA;

/// A record whose data are an SOA, as it is beside a negative answer (RFC 2308 section 3).
#[derive(Debug, Drop)]
pub struct SoaRecord {
    /// The owner.
    pub name: Name,
    /// The class.
    pub dns_class: DNSClass,
    /// How long it may be kept, in seconds.
    pub ttl: u32,
    /// The data.
    pub soa: SOA,
}
