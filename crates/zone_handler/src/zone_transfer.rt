//! A zone as a transfer hands it out (RFC 5936).
ghost use Rattle.std.specs.Prelude.{◌≡◌};
ghost use Rattle.zone_handler.specs.Transfers.{transfer_records};

use crate::axfr_records::AxfrRecords;
use crate::lookup_records::LookupRecords;
use crate::zone_transfer_iter::ZoneTransferIter;
use zone_proto::Record;

/// A zone as it is sent to another server (RFC 5936 section 2.2): its records stand between two SOA records.
#[derive(Debug, Drop)]
pub struct ZoneTransfer {
    /// The zone's SOA, with which a transfer begins.
    pub start_soa: LookupRecords,
    /// The other records of the zone.
    pub records: AxfrRecords,
    /// The SOA again, with which a transfer ends.
    pub end_soa: LookupRecords,
}

impl ZoneTransfer {
    /// Lends the records of the three parts, one part after the other. Doesn't allocate.
    pub fn iter(&self) -> ZoneTransferIter<'_>
        ensures { result ≡ transfer_records self.now }
    {
        ZoneTransferIter::new(
            self.start_soa.iter(),
            (&self.records).into_iter(),
            self.end_soa.iter(),
        )
    }
}

impl<'r> IntoIterator for &'r ZoneTransfer {
    type Item = &'r Record;

    type IntoIter = ZoneTransferIter<'r>;

    ghost into_iter_gives = { λ transfer it. it ≡ transfer_records transfer.now };

    /// The same as [`ZoneTransfer::iter`].
    fn into_iter(self) -> ZoneTransferIter<'r> {
        self.iter()
    }
}
