//! The one question of a request.
use zone_proto::Query;

/// What a handler is told of the request that a lookup serves.
#[derive(Clone, Copy)]
pub struct RequestInfo<'a> {
    /// The request's only question.
    pub query: &'a Query,
}
