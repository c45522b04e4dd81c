//! Frames answered from the zones of files.
ghost use Rattle.std.specs.Prelude.{◌≡◌, ◌≢◌, ◌≤◌, OnErr, OnOk};
ghost use Rattle.zone_server.specs.Serving.{Serves};
ghost use Rattle.zone_server.specs.Stopping.{BreaksOff};
ghost use Rattle.zoned.specs.Zones.{server_of};

use crate::reporting::tell_stop;
use std::alloc::Global;
use std::io::{Read, Write};
use zone_database::{Zone, served};
use zone_server::{ListedZones, Mode, Server, Stop, TransferPolicy, serve_frames};

/// Answers the frames of an input from zones, each with who may transfer it, and gives the status of the program: 0 at
/// the end of the input, and 2 where there isn't enough memory, or a read or a write fails; why is told, and what was written
/// by then is a front of the answers.
pub fn serve<R: Read, W: Write, E: Write>(
    alloc: Global,
    zones: &[Zone],
    policies: &[TransferPolicy],
    mode: Mode,
    input: &mut R,
    output: &mut W,
    fault: &mut E,
) -> u8
    ensures status { result ≤ 2 }
    ensures served { result ≡ 0 → Serves (server_of zones.now policies.now) mode
        (R.remaining input.old) (R.remaining input.new)
        (W.contents output.old) (W.contents output.new) }
    ensures broken_off { result ≢ 0 → BreaksOff (server_of zones.now policies.now) mode
        (R.remaining input.old) (R.remaining input.new)
        (W.contents output.old) (W.contents output.new) }
{
    match serve_zones(alloc, zones, policies, mode, input, output) {
        Ok(()) => 0,
        Err(stop) => tell_stop(fault, &stop),
    }
}

/// Answers the frames of an input from zones, up to its end.
fn serve_zones<R: Read, W: Write>(
    alloc: Global,
    zones: &[Zone],
    policies: &[TransferPolicy],
    mode: Mode,
    input: &mut R,
    output: &mut W,
) -> Result<(), Stop>
    ensures served { OnOk result (Serves (server_of zones.now policies.now) mode
        (R.remaining input.old) (R.remaining input.new)
        (W.contents output.old) (W.contents output.new)) }
    ensures broken_off { OnErr result (BreaksOff (server_of zones.now policies.now) mode
        (R.remaining input.old) (R.remaining input.new)
        (W.contents output.old) (W.contents output.new)) }
{
    let zones = ListedZones::new(alloc, served(alloc, zones)?)?;
    let server = Server {
        zones: &zones,
        policies,
    };
    serve_frames(alloc, &server, mode, input, output)
}
