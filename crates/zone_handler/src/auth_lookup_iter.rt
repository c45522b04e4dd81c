//! The records of an answer, one after the other.
ghost use Rattle.std.specs.Prelude.{◌≡◌, []};
ghost use Rattle.std.specs.Iterator.{YieldsFirstRef, item_count};
ghost use Rattle.zone_handler.specs.AuthLookup.{left_of};

use crate::lookup_records_iter::LookupRecordsIter;
use std::slice;
use zone_proto::Record;

/// Lends the records of an answer, and doesn't allocate. The default is empty.
#[derive(Drop)]
pub enum AuthLookupIter<'r> {
    /// No records.
    Empty,
    /// Records of the zone.
    Records(LookupRecordsIter<'r>),
    /// Records of another server's response.
    Response(slice::Iter<'r, Record>),
}

impl Default for AuthLookupIter<'_> {
    ghost use Rattle.std.specs.Prelude.{◌≡◌};
    ghost use Rattle.zone_handler.specs.declared.auth_lookup_iter.AuthLookupIter.TheVariants.{Empty};

    ghost is_default = { λ it. it ≡ Empty };

    fn default() -> Self {
        AuthLookupIter::Empty
    }
}

impl<'r> Iterator for AuthLookupIter<'r> {
    type Item = &'r Record;

    ghost next_gives = { YieldsFirstRef left_of };

    ghost remaining = { item_count left_of };

    fn next(&mut self) -> Option<&'r Record> {
        match self {
            AuthLookupIter::Empty => None,
            AuthLookupIter::Records(records) => records.next(),
            AuthLookupIter::Response(records) => records.next(),
        }
    }
}
