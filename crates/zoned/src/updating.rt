//! Zones that take updates (RFC 2136).
ghost use Rattle.std.specs.Prelude.{◌≡◌, ◌≢◌, ◌≤◌};
ghost use Rattle.served_frames.specs.Serving.{Serves};
ghost use Rattle.served_frames.specs.Stopping.{BreaksOff};

use crate::journals::open_journals;
use crate::keyed::{HostClock, database_of, granted_access};
use crate::reporting::tell_stop;
use crate::rules::ruled_access;
use crate::wanted::WantedUpdates;
use host_texts::{read_file, tell};
use served_frames::{Answerer, serve_by};
use std::alloc::Global;
use std::io::{Read, Write};
use updating_frames::UpdatingServer;
use zone_database::Zone;
use zone_server::{Mode, TransferPolicy};

/// Answers the frames of an input from zones, each with who may have it by the keys of a file, takes updates of those whom rules permit it, and gives the
/// status of the program. Each zone is the one that its journal leads to.
pub fn serve_with_updates<R: Read, W: Write, E: Write>(
    rt: &HostRuntime,
    alloc: Global,
    keys: &str,
    wanted: WantedUpdates<'_>,
    zones: Vec<Zone>,
    policies: &[TransferPolicy],
    mode: Mode,
    input: &mut R,
    output: &mut W,
    fault: &mut E,
) -> u8
    ensures { result ≤ 2 }
{
    let mut text = Vec::new(alloc);
    if read_file(rt, keys, &mut text, fault).is_none() {
        return 2;
    }
    let text = text.as_slice();
    let Some(access) = granted_access(alloc, keys, text, zones.as_slice(), policies, fault) else {
        return 2;
    };
    let Ok(mut zones) = database_of(alloc, zones) else {
        return tell(fault, b"out of memory\n");
    };
    let Some(updates) = ruled_access(rt, alloc, keys, text, wanted.rules, &zones, fault) else {
        return 2;
    };
    let Some(journals) = open_journals(rt, alloc, wanted.journals, &updates, &mut zones, fault)
    else {
        return 2;
    };
    let mut server = UpdatingServer {
        alloc,
        zones,
        access,
        updates,
        journals,
        clock: HostClock { rt },
    };
    serve_answers(alloc, &mut server, mode, input, output, fault)
}

/// Has the frames of an input answered, and gives the status of the program: 0 at the end of the input, and 2 where there isn't enough memory, a
/// read or a write fails, or a journal can't take an update; why is told, and what was written by then is a front of the answers.
fn serve_answers<A: Answerer, R: Read, W: Write, E: Write>(
    alloc: Global,
    answerer: &mut A,
    mode: Mode,
    input: &mut R,
    output: &mut W,
    fault: &mut E,
) -> u8
    ensures status { result ≤ 2 }
    ensures served { result ≡ 0 → Serves A.answers answerer.old mode
        (R.remaining input.old) (R.remaining input.new)
        (W.contents output.old) (W.contents output.new) answerer.new }
    ensures broken_off { result ≢ 0 → BreaksOff A.answers A.begins answerer.old mode
        (R.remaining input.old) (R.remaining input.new)
        (W.contents output.old) (W.contents output.new) answerer.new }
{
    match serve_by(alloc, answerer, mode, input, output) {
        Ok(()) => 0,
        Err(stop) => tell_stop(fault, &stop),
    }
}
