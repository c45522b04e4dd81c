//! Responses and reports, written into a room of the caller's.
ghost use Rattle.zone_database.specs.Calls.{IsGiven, IsReported};

use crate::outcome::Outcome;
use call_handles::{write_cut, write_front};

/// Writes a response into the room, unless it is longer than that, and gives its length beside how this ended.
pub fn give(octets: &[u8], buffer: &mut [u8]) -> (Outcome, usize)
    ensures { IsGiven octets.now result.0 result.1 buffer.old buffer.new }
{
    if buffer.len() < octets.len() {
        return (Outcome::NoRoom, octets.len());
    }
    write_front(octets, buffer);
    (Outcome::Done, octets.len())
}

/// Writes what is reported about a text into the room, as much of it as the room takes, and gives how many octets that
/// is. It is told where the call is done, and where the text is bad.
pub fn tell(outcome: Outcome, text: &[u8], buffer: &mut [u8]) -> usize
    ensures { IsReported outcome result buffer.old buffer.new }
{
    match outcome {
        Outcome::Done | Outcome::BadText => write_cut(text, buffer),
        _ => 0,
    }
}
