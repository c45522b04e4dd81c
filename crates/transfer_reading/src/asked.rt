//! What was asked.
ghost use Rattle.std.specs.Prelude.{◌≡◌};
ghost use Rattle.transfer_reading.specs.Queries.{type_asked};

use zone_proto::{Name, RecordType};
use zone_secondary::Question;

/// A question to the primary of a zone of class IN, as it was sent.
#[derive(Debug, Drop)]
pub struct Asked {
    /// The identifier of the query.
    pub id: u16,
    /// The origin of the zone.
    pub origin: Name,
    /// What was asked.
    pub question: Question,
}

/// The type that a question asks for: SOA, IXFR (RFC 1995 section 2) or AXFR (RFC 5936 section 2.1).
pub(crate) fn type_asked(question: Question) -> RecordType
    ensures { result.0 ≡ type_asked question }
{
    match question {
        Question::Soa => RecordType::SOA,
        Question::Changes(_) => RecordType::IXFR,
        Question::Zone => RecordType::AXFR,
    }
}
