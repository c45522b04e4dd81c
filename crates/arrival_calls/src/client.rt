//! Messages of clients, as a program that isn't written in Rattle hands them over.
ghost use Rattle.std.specs.Prelude.{◌≡◌};
ghost use Rattle.arrival_calls.specs.ArrivalCalls.{AnswersClient, arrival_of, options_of};

use crate::answering::answer_arrival;
use crate::secrets::secrets_of;
use crate::summary_numbers::SummaryNumbers;
use server_options::{Arrival, ServerOptions};
use std::alloc::Global;
use zone_database::calls::transport_of;
use zone_database::{DatabaseHandle, Outcome};
use zone_server::Transport;

/// What a server answers by options.
#[repr(C)]
#[derive(Clone, Copy, Drop)]
pub struct ServerSettings<'a> {
    /// Its identifier (RFC 5001); without octets it has none.
    pub nsid: &'a [u8],
    /// The secrets for cookies (RFC 7873): 16 octets are the current one, and 32 the current one and the one before it; with any other number
    /// of octets there are none, and COOKIE options are passed over.
    pub secrets: &'a [u8],
    /// Other than 0 if a query over UDP that has a COOKIE option without a valid server cookie gets BADCOOKIE.
    pub cookies_required: u32,
}

/// A message, and how it came.
#[repr(C)]
#[derive(Clone, Copy, Drop)]
pub struct ClientMessage<'a> {
    /// Its octets.
    pub octets: &'a [u8],
    /// The address that it came from, of 4 or 16 octets.
    pub address: &'a [u8],
    /// The moment, in seconds since 1970.
    pub moment: u64,
    /// How many octets the way over UDP takes.
    pub limit: usize,
    /// 0 for UDP, and 1 for TCP.
    pub transport: u32,
}

/// Answers a client's message from the zones that a handle holds, as [`answer_arrival`](server_options::answer_arrival) does: writes the
/// response into the room, its length into `written`, and what it was into `summary`.
///
/// `Done` with a response, and `NoRoom` where it is longer than the room: then `written` says how many octets it has. `Ignored` where the
/// message gets no answer, `NoMemory` where no memory is found, `Closed` where the handle holds no zones, and `BadTransport` where the number
/// is none of a transport: then `written` is 0, and `summary` stays. The room stays as it was after anything but `Done`.
pub fn answer_client(
    alloc: Global,
    zones: &mut DatabaseHandle,
    settings: &ServerSettings<'_>,
    message: &ClientMessage<'_>,
    buffer: &mut [u8],
    written: &mut usize,
    summary: &mut SummaryNumbers,
) -> Outcome
    ensures answer { AnswersClient settings.now message.now zones.old.held summary.old result
        written.new buffer.old buffer.new summary.new }
    ensures same { zones.new.held ≡ zones.old.held }
{
    let Some(transport) = transport_of(message.limit, message.transport) else {
        *written = 0;
        return Outcome::BadTransport;
    };
    let options = options_of(settings);
    let arrival = arrival_of(message, transport);
    answer_arrival(alloc, zones, &options, &arrival, buffer, written, summary)
}

/// The options of a server with these settings.
fn options_of<'a>(settings: &ServerSettings<'a>) -> ServerOptions<'a>
    ensures { result ≡ options_of settings.now }
{
    ServerOptions {
        nsid: settings.nsid,
        secrets: secrets_of(settings.secrets),
        cookies_required: settings.cookies_required != 0,
    }
}

/// A message that came by a transport, as it arrives.
fn arrival_of<'a>(message: &ClientMessage<'a>, transport: Transport) -> Arrival<'a>
    ensures { result ≡ arrival_of message.now transport }
{
    Arrival {
        message: message.octets,
        address: message.address,
        moment: (message.moment % 4_294_967_296) as u32,
        transport,
    }
}
