//! The step of an SOA serial (RFC 1982).
ghost use Rattle.std.specs.Prelude.{◌≡◌};
ghost use Rattle.zone_proto.specs.Sets.{soa_serial};
ghost use Rattle.zone_proto.specs.Stepping.{stepped_data};

use crate::rdata::RData;

/// Steps the serial of SOA data by one modulo 2^32, and gives it; other data stay.
pub fn step(rdata: &mut RData) -> Option<u32>
    ensures data { rdata.new ≡ stepped_data rdata.old }
    ensures serial { result ≡ soa_serial rdata.new }
{
    match rdata {
        RData::SOA(soa) => {
            soa.serial = soa.serial.wrapping_add(1);
            Some(soa.serial)
        }
        _ => None,
    }
}
