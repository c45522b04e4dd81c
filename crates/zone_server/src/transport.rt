//! How queries come and responses go (RFC 1035 section 4.2).
ghost use Rattle.std.specs.Prelude.{◌≡◌, None};
ghost use Rattle.zone_server.specs.Limits.{limit_for};

use message_reading::Query;

/// How many octets the server sends in one datagram, and says that it takes: the 1,280 that every link of IPv6 takes whole (RFC
/// 8200 section 5), without the 48 of the headers of IPv6 and UDP.
pub const DATAGRAM_SIZE: u16 = 1_232;

/// How a query came, and how its response goes.
#[derive(Clone, Copy, PartialEq, Eq, Debug)]
pub enum Transport {
    /// UDP. The way takes datagrams of so many octets; where the client or this server takes fewer, that counts.
    Udp { limit: u16 },
    /// TCP, or whatever else carries messages of up to 65,535 octets.
    Tcp,
}

/// How many octets the response to a query may have: over UDP 512 where the query has no OPT record (RFC 1035 section
/// 4.2.1), and never fewer (RFC 6891 section 6.2.3).
pub fn limit_for(transport: Transport, query: &Query) -> u16
    ensures { result ≡ limit_for transport query.now.extension }
{
    match transport {
        Transport::Udp { limit } => query.limit(limit.min(DATAGRAM_SIZE)),
        Transport::Tcp => u16::MAX,
    }
}

/// How many octets the response to a message without an OPT record may have: over UDP 512 (RFC 1035 section 4.2.1).
pub fn limit_without_opt(transport: Transport) -> u16
    ensures { result ≡ limit_for transport None }
{
    match transport {
        Transport::Udp { .. } => 512,
        Transport::Tcp => u16::MAX,
    }
}
