//! A request as a zone sees it: its questions.
ghost use Rattle.std.specs.Prelude.{◌≡◌, ◌↔◌, ◌∷◌, [], length, IsOk, IfOk, IfErr};

use crate::request_info::RequestInfo;
use lookup_types::LookupError;
use zone_proto::Query;

/// What a client asks of a server.
#[derive(Debug, Drop)]
pub struct Request {
    /// The questions, in order (RFC 1035 section 4.1.2).
    pub queries: Vec<Query>,
}

impl Request {
    /// What a handler is told of this request: its only question, since a query has one (RFC 9619 section 4). Refused
    /// by `BadQueryCount`, with the number of questions, for none and for several. Doesn't allocate.
    pub fn request_info(&self) -> Result<RequestInfo<'_>, LookupError>
        ensures one { IsOk result ↔ (length self.now.queries.items ≡ 1) }
        ensures ok { IfOk result (λ info. self.now.queries.items ≡ info.query.now ∷ []) }
        ensures err { IfErr result
            (λ error. error ≡ LookupError.BadQueryCount (length self.now.queries.items)) }
    {
        match self.queries.as_slice() {
            [query] => Ok(RequestInfo { query }),
            queries => Err(LookupError::BadQueryCount(queries.len())),
        }
    }
}
