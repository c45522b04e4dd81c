//! What NOTIFY messages say.
use zone_proto::Name;

/// A NOTIFY: a zone may have changed (RFC 1996 section 3).
#[derive(Debug, Drop)]
pub struct Notify {
    /// The identifier, which the response repeats.
    pub id: u16,
    /// The origin of the zone, in the case in which it is there.
    pub origin: Name,
    /// The serial of the SOA record that is the first answer, if one is. It is a hint that anybody may have written (section 3.7): whoever
    /// has this version already need not ask.
    pub serial: Option<u32>,
}

/// What a NOTIFY is answered with.
#[derive(Clone, Copy, PartialEq, Eq, Debug)]
pub enum NotifyOutcome {
    /// It was taken: NOERROR, with AA.
    Taken,
    /// The server is no secondary of this zone: NOTAUTH.
    NotAuthoritative,
    /// The server doesn't take it from this sender: REFUSED.
    Refused,
}

/// The response to a NOTIFY: no further one need be sent (RFC 1996 section 3.2).
#[derive(Clone, Copy, PartialEq, Eq, Debug)]
pub struct NotifyResponse {
    /// The identifier of the NOTIFY.
    pub id: u16,
    /// The low four bits of the response code, which is 0 where it was taken.
    pub response_code: u8,
}
