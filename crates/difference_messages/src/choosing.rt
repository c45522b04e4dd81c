//! What answers a question for the changes of a zone.
ghost use Rattle.std.specs.Prelude.{◌≡◌};
ghost use Rattle.std.specs.List.{list_any, position};
ghost use Rattle.zone_proto.specs.Sets.{first_serial};
ghost use Rattle.difference_messages.specs.Choosing.{begins_at, reply_to};

use shown_zones::ZoneStep;
use zone_proto::{RecordSet, first_serial, is_newer};

/// What answers a question for the changes of a zone.
#[derive(Clone, Copy, PartialEq, Eq, Debug)]
pub enum DifferenceReply {
    /// The SOA alone: the version that is held isn't older (RFC 1995 section 2).
    StartOfAuthority,
    /// The steps from the one of this index on (section 4).
    StepsFrom(usize),
    /// The whole zone, since the changes since that version aren't known (section 4).
    WholeZone,
}

/// What answers a secondary that holds the version of a serial. The newest version has the second serial, and the steps lead to it, the
/// oldest first.
///
/// Steps answer it if one begins at the version that is held. If one begins at the serial of the newest version too, serials have come around
/// (RFC 1982), and a secondary would take the zone to be complete there: then the whole zone does. Doesn't allocate.
pub fn reply_to(held: u32, newest: u32, steps: &[ZoneStep]) -> DifferenceReply
    ensures { result ≡ reply_to held newest steps.now }
{
    if !is_newer(newest, held) {
        return DifferenceReply::StartOfAuthority;
    }
    if has_step_at(newest, steps) {
        return DifferenceReply::WholeZone;
    }
    match place_of(held, steps) {
        Some(place) => DifferenceReply::StepsFrom(place),
        None => DifferenceReply::WholeZone,
    }
}

/// Whether one of some steps begins at a serial. Doesn't allocate.
pub fn has_step_at(serial: u32, steps: &[ZoneStep]) -> bool
    ensures { result ≡ list_any (begins_at serial) steps.now }
{
    steps.iter().any(|step| begins_at(serial, step))
}

/// Where the first step stands that begins at a serial.
fn place_of(serial: u32, steps: &[ZoneStep]) -> Option<usize>
    ensures { result ≡ position (begins_at serial) steps.now }
{
    steps.iter().position(|step| begins_at(serial, step))
}

/// Whether a step begins at a serial: it leads on from a version that has it. Doesn't allocate.
pub fn begins_at(serial: u32, step: &ZoneStep) -> bool
    ensures { result ≡ begins_at serial step.now }
{
    match serial_of(&step.old_soa) {
        Some(old) => old == serial,
        None => false,
    }
}

/// The serial of the first record of an SOA. Doesn't allocate.
pub fn serial_of(soa: &RecordSet) -> Option<u32>
    ensures { result ≡ first_serial soa.now.records }
{
    first_serial(soa.as_slice())
}
