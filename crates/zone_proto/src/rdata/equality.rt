//! Equality of data.
ghost use Rattle.zone_proto.specs.Data.{same_data};
ghost use Rattle.zone_proto.specs.DataEquality.{same_data_equiv};
ghost use Rattle.std.specs.Cmp.{partial_equiv_from_equiv};

use super::RData;

impl PartialEq for RData {
    ghost eq = { same_data };

    ghost laws = { partial_equiv_from_equiv same_data_equiv };

    fn eq(&self, other: &RData) -> bool {
        match (self, other) {
            (RData::A(a), RData::A(b)) => a == b,
            (RData::AAAA(a), RData::AAAA(b)) => a == b,
            (RData::NS(a), RData::NS(b)) => a == b,
            (RData::CNAME(a), RData::CNAME(b)) => a == b,
            (RData::ANAME(a), RData::ANAME(b)) => a == b,
            (RData::SOA(a), RData::SOA(b)) => a == b,
            (RData::MX(a), RData::MX(b)) => a == b,
            (RData::SRV(a), RData::SRV(b)) => a == b,
            (RData::DNSKEY(a), RData::DNSKEY(b)) => a == b,
            (RData::NSEC(a), RData::NSEC(b)) => a == b,
            (RData::NSEC3(a), RData::NSEC3(b)) => a == b,
            (RData::NSEC3PARAM(a), RData::NSEC3PARAM(b)) => a == b,
            (RData::RRSIG(a), RData::RRSIG(b)) => a == b,
            (RData::Other(a), RData::Other(b)) => a == b,
            _ => false,
        }
    }
}

impl Eq for RData {
    ghost laws = { same_data_equiv };
}
