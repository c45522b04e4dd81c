//! Whole messages.

use crate::header::Header;
use crate::question::Question;
use zone_proto::Record;

/// A message with all its data (RFC 1035 section 4.1). An OPT record is an additional record of type 41, whose class and TTL are
/// as RFC 6891 section 6.1.3 says.
#[derive(Debug, Drop)]
pub struct Message {
    /// The header.
    pub header: Header,
    /// The questions.
    pub questions: Vec<Question>,
    /// What answers the question.
    pub answers: Vec<Record>,
    /// Records about the authority for the name.
    pub authorities: Vec<Record>,
    /// What may help beside the answer.
    pub additionals: Vec<Record>,
}
