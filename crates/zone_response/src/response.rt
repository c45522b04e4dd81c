//! A response by its sections, whose sets are lent out of the zone.
ghost use Rattle.std.specs.Prelude.{◌≡◌};
ghost use Rattle.zone_lookup.specs.FoundSets.{found_set};
ghost use Rattle.zone_response.specs.Sections.{covers, is_signed};

use zone_lookup::Found;
use zone_proto::{LowerName, RData, Record, RecordSet, RecordType, ResponseCode};

/// What is sent of a set.
#[derive(Clone, Copy, PartialEq, Eq, Debug)]
pub enum Part {
    /// The records.
    Records,
    /// The records and then the signatures.
    Signed,
    /// The signatures alone.
    Signatures,
}

/// A set of a response, lent out of the zone or made for it.
#[derive(Drop)]
pub struct Sent<'z> {
    /// The set.
    pub set: Found<'z>,
    /// The TTL of all its records and signatures, in seconds, whatever they have themselves (RFC 2181 section 5.2).
    pub ttl: u32,
    /// What is sent. Of the signatures only those are sent for which [`Sent::covers`] says that they cover the set's
    /// type.
    pub part: Part,
}

impl<'z> Sent<'z> {
    /// Whether a record is a signature that covers the set's type (RFC 4034 section 3.1.1).
    pub fn covers(&self, rrsig: &Record) -> bool
        ensures { result ≡ covers (found_set self.now.set).record_type rrsig.now.rdata }
    {
        covers(self.set.set().record_type(), rrsig)
    }
}

/// Whether a record is a signature that covers a type.
fn covers(record_type: RecordType, rrsig: &Record) -> bool
    ensures { result ≡ covers record_type.0 rrsig.now.rdata }
{
    match &rrsig.rdata {
        RData::RRSIG(signature) => signature.type_covered == record_type,
        _ => false,
    }
}

/// Whether a set has a signature that covers its type.
pub(crate) fn is_signed(set: &RecordSet) -> bool
    ensures { result ≡ is_signed set.now }
{
    for rrsig in set.rrsigs() {
        if covers(set.record_type(), rrsig) {
            return true;
        }
    }
    false
}

/// The response of an authoritative server (RFC 1035 section 4.1), without its question, its identifier and the header's bits
/// that don't come from the zone.
#[derive(Drop)]
pub struct Response<'z> {
    /// The response code.
    pub code: ResponseCode,
    /// Whether the server is an authority for the first name that is answered.
    pub authoritative: bool,
    /// The answer section.
    pub answers: Vec<Sent<'z>>,
    /// The authority section.
    pub authorities: Vec<Sent<'z>>,
    /// What goes into the additional section where there is room.
    pub additionals: Vec<Sent<'z>>,
    /// What has to go into the additional section, so that a message without room for it is truncated: the glue of a
    /// referral's servers that are in the child (RFC 9471 section 3.1).
    pub glue: Vec<Sent<'z>>,
    /// The name at which a chain of aliases left the zone, if it did. Another zone of the server may go on there.
    pub left_at: Option<LowerName>,
}
