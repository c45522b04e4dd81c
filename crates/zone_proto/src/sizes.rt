//! What a value of each type takes at most, in octets.
//
// Zones hold millions of these values. A map moves its keys and sets as it grows, and a walk waits for what of a key the cache
// doesn't hold: so that a field by which a value grows is seen here.
use crate::lower_name::LowerName;
use crate::name::Name;
use crate::rdata::{NSEC3, RData};
use crate::record::Record;
use crate::record_set::RecordSet;
use crate::record_type::RecordType;
use crate::rr_key::RrKey;
use crate::seq::Seq;
use std::mem::size_of;

// Two names to a line of the cache: 30 octets, their count, and the tag of the form that keeps them.
const _: () = prove!(size_of::<Name>() <= 32);

// A name whose letters are in lower case is the name, and nothing beside it.
const _: () = prove!(size_of::<LowerName>() <= 32);

// The type takes two octets behind the name, and as a form may hold a pointer, keys stand eight octets apart.
const _: () = prove!(size_of::<RrKey>() <= 40);

// The owner, two lists, and what is the same in all records of the set.
const _: () = prove!(size_of::<RecordSet>() <= 96);

/// The same of what holds lists: a list has a field whose type goes by its items, so no constant measures it. Called nowhere,
/// since all of it is proved.
fn lists_are_small() {
    // As many as a Vec, and the tag that tells where the items stand.
    prove!(size_of::<Seq<u8>>() <= 32);
    prove!(size_of::<Seq<RecordType>>() <= 32);
    // Three lists, and what precedes them.
    prove!(size_of::<NSEC3>() <= 104);
    // The largest data, and a tag, which takes as much room as a pointer is aligned to.
    prove!(size_of::<RData>() <= 112);
    // The data, the owner, class and TTL.
    prove!(size_of::<Record>() <= 152);
}
