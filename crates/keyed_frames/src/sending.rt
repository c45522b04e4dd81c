//! Messages that are written behind their lengths, and the zones that they send.
ghost use Rattle.std.specs.Prelude.{◌≡◌, ◌++◌, length, OnErr, OnOk};
ghost use Rattle.std.specs.Io.KnownBytes.{Appends};
ghost use Rattle.zone_server.specs.Frames.{framed, length_text};
ghost use Rattle.zone_server.specs.Stopping.{MovesFront};
ghost use Rattle.keyed_frames.specs.Sending.{IsSentWhole};
ghost use Rattle.keyed_frames.specs.Serving.{Writes};
ghost use Rattle.keyed_frames.specs.Stopping.{BeginsZone, Stops};

use crate::clock::Clock;
use held_transfers::HeldTransfer;
use std::alloc::Global;
use std::io;
use std::io::{ErrorKind, Write};
use zone_server::Stop;

/// Writes a message behind its length, to where it is read; nothing where it has no octets. A message has at most 65,535. Where a write fails, a
/// front of them was written.
#[tactic(auto, using(crate::proofs::Written::framed_whole, crate::proofs::Written::framed_nothing, crate::proofs::Written::framed_front))]
pub fn write_framed<W: Write>(octets: &[u8], output: &mut W) -> Result<(), Stop>
    ensures written { OnOk result (Appends (W.contents output.old) (W.contents output.new)
        (framed octets.now)) }
    ensures front { OnErr result (MovesFront (framed octets.now)
        (W.contents output.old) (W.contents output.new)) }
{
    if octets.len() == 0 {
        return Ok(());
    }
    match write_behind_length(octets, output) {
        Ok(()) => Ok(()),
        Err(e) => Err(Stop::Write(e.kind())),
    }
}

/// Writes octets behind their length, to where they are read.
#[tactic(auto, using(crate::proofs::Written::both_appended, crate::proofs::Written::first_front, crate::proofs::Written::second_front, crate::proofs::Written::both_front, zone_server::proofs::WrittenFronts::none_front))]
fn write_behind_length<W: Write>(octets: &[u8], output: &mut W) -> io::Result<()>
    ensures written { OnOk result (Appends (W.contents output.old) (W.contents output.new)
        (length_text (length octets.now) ++ octets.now)) }
    ensures front { OnErr result (MovesFront (length_text (length octets.now) ++ octets.now)
        (W.contents output.old) (W.contents output.new)) }
{
    let count = octets.len();
    if count > 65_535 {
        return Err(io::Error::from(ErrorKind::InvalidInput));
    }
    let head = [(count / 256) as u8, (count % 256) as u8];
    if let Err(e) = write_whole(&head, output) {
        return Err(e);
    }
    if let Err(e) = write_whole(octets, output) {
        return Err(e);
    }
    output.flush()
}

/// Writes octets, as many at a time as the output takes, and again where a signal came first: of the `write_all` of the library it isn't known
/// what was written where it fails.
fn write_whole<W: Write>(octets: &[u8], output: &mut W) -> io::Result<()>
    ensures all { OnOk result
        (Appends (W.contents output.old) (W.contents output.new) octets.now) }
    ensures front { OnErr result
        (MovesFront octets.now (W.contents output.old) (W.contents output.new)) }
{
    let mut rest = octets;
    for _ in 0..u64::MAX {
        if rest.is_empty() {
            return Ok(());
        }
        match output.write(rest) {
            Ok(0) => return Err(io::Error::from(ErrorKind::WriteZero)),
            Ok(count) => rest = &rest[count..],
            Err(e) => {
                if e.kind() != ErrorKind::Interrupted {
                    return Err(e);
                }
            }
        }
    }
    Err(io::Error::from(ErrorKind::Interrupted))
}

/// Writes the messages of a zone that is being sent, each made at its moment, up to the last one.
#[tactic(auto, using(crate::proofs::Sent::none_sent, crate::proofs::Sent::sent_on, crate::proofs::Sent::ends, crate::proofs::StoppedFrames::zone_stops, crate::proofs::StoppedFrames::message_stops))]
pub(crate) fn send_zone<C: Clock, W: Write>(
    alloc: Global,
    transfer: &mut HeldTransfer,
    clock: &mut C,
    out: &mut Vec<u8>,
    output: &mut W,
) -> Result<(), Stop>
    ensures sent { OnOk result (Writes (IsSentWhole transfer.old)
        (W.contents output.old) (W.contents output.new)) }
    ensures stopped { OnErr result (Stops (BeginsZone transfer.old)
        (W.contents output.old) (W.contents output.new)) }
{
    for _ in 0..u64::MAX {
        let now = clock.seconds();
        let is_message = match transfer.next(alloc, now, out) {
            Ok(is_message) => is_message,
            Err(_) => return Err(Stop::Memory),
        };
        if !is_message {
            return Ok(());
        }
        if let Err(stop) = write_framed(out.as_slice(), output) {
            return Err(stop);
        }
    }
    Err(Stop::Write(ErrorKind::Interrupted))
}
