//! Serials: their order (RFC 1982), and those of SOA data (RFC 1035 section 3.3.13).
ghost use Rattle.std.specs.Prelude.{◌≡◌};
ghost use Rattle.zone_proto.specs.Serials.{is_newer};
ghost use Rattle.zone_proto.specs.Sets.{first_serial, soa_serial};

use crate::rdata::RData;
use crate::record::Record;

/// Whether a serial is greater than another (RFC 1982 section 3.2): serials go on from 0 behind the greatest. Of two that are
/// 2^31 apart neither is. Doesn't allocate.
pub fn is_newer(serial: u32, than: u32) -> bool
    ensures { result ≡ is_newer serial than }
{
    let ahead = serial.wrapping_sub(than);
    0 < ahead && ahead < 2147483648
}

/// The serial of SOA data; none for those of another type. Doesn't allocate.
pub fn soa_serial(rdata: &RData) -> Option<u32>
    ensures { result ≡ soa_serial rdata.now }
{
    match rdata {
        RData::SOA(soa) => Some(soa.serial),
        _ => None,
    }
}

/// The serial of the SOA that records begin with; none where they begin with no SOA, or there are none. Doesn't allocate.
pub fn first_serial(records: &[Record]) -> Option<u32>
    ensures { result ≡ first_serial records.now }
{
    soa_serial(&records.first()?.rdata)
}
