//! Queries.
ghost use Rattle.std.specs.Prelude.{◌≡◌};
ghost use Rattle.message_reading.specs.Queries.{limit_of};

use crate::header::Header;
use crate::question::Question;

/// What a query says by its OPT record (RFC 6891 section 6.1.3).
#[derive(Clone, Copy, PartialEq, Eq, Debug)]
pub struct Extension {
    /// How many octets the sender takes in one datagram.
    pub size: u16,
    /// The version of EDNS.
    pub version: u8,
    /// DO: the sender takes DNSSEC records (RFC 3225 section 3).
    pub dnssec_ok: bool,
}

/// A query as it was read.
#[derive(Debug, Drop)]
pub struct Query {
    /// The header.
    pub header: Header,
    /// The question.
    pub question: Question,
    /// What is said by EDNS.
    pub extension: Option<Extension>,
}

impl Query {
    /// How many octets a datagram that answers may have, where the server sends at most so many: 512 where the query
    /// has no OPT record (RFC 1035 section 4.2.1), and never fewer (RFC 6891 section 6.2.3). Doesn't allocate.
    pub fn limit(&self, ours: u16) -> u16
        ensures { result ≡ limit_of self.now.extension ours }
    {
        match self.extension {
            None => 512,
            Some(extension) => extension.size.min(ours).max(512),
        }
    }
}
