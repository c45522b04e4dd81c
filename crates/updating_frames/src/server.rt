//! A server that takes updates.
ghost use Rattle.std.specs.Prelude.{OnErr, OnOk};
ghost use Rattle.zone_database.specs.Databases.{zones_in};
ghost use Rattle.zone_server.specs.Frames.{framed_of};
ghost use Rattle.served_frames.specs.Serving.{Writes};
ghost use Rattle.served_frames.specs.Stopping.{Stops};
ghost use Rattle.updating_frames.specs.Turns.{Comes, IsBegun, ServesUpdated, StopsUpdated};

use crate::journals::Journals;
use held_transfers::TransferAccess;
use held_updates::{Commit, PlannedUpdate, UpdateAccess, UpdatedZone, commit_update, plan_update};
use keyed_frames::{Clock, answer_keyed_frame, write_framed};
use served_frames::Answerer;
use std::alloc::Global;
use std::io::{ErrorKind, Write};
use zone_database::ZoneDatabase;
use zone_server::{Frame, Stop};

/// A server that takes updates of its zones.
#[derive(Drop)]
pub struct UpdatingServer<C: Clock, J: Journals> {
    /// Where the zones take their memory from.
    pub alloc: Global,
    /// The zones.
    pub zones: ZoneDatabase,
    /// Who may have which zone.
    pub access: TransferAccess,
    /// Who may change what.
    pub updates: UpdateAccess,
    /// The journals of the zones.
    pub journals: J,
    /// The clock by which signatures hold.
    pub clock: C,
}

impl<C: Clock, J: Journals> Answerer for UpdatingServer<C, J> {
    ghost use Rattle.zone_database.specs.Databases.{zones_in};
    ghost use Rattle.updating_frames.specs.Turns.{Answers, Begins};

    ghost answers = { λ s f text new. Answers f
        (record {
          access = s.access;
          updates = s.updates;
          zones = zones_in s.zones;
          entries = J.entries s.journals;
        })
        (record {
          access = new.access;
          updates = new.updates;
          zones = zones_in new.zones;
          entries = J.entries new.journals;
        })
        text };

    ghost begins = { λ s f text new. Begins f
        (record {
          access = s.access;
          updates = s.updates;
          zones = zones_in s.zones;
          entries = J.entries s.journals;
        })
        (record {
          access = new.access;
          updates = new.updates;
          zones = zones_in new.zones;
          entries = J.entries new.journals;
        })
        text };

    #[tactic(auto, using(crate::proofs::Answered::answered, crate::proofs::Answered::begun, crate::proofs::Answered::not_begun))]
    fn answer<W: Write>(&mut self, frame: Frame<'_>, output: &mut W) -> Result<(), Stop> {
        let now = self.clock.seconds();
        let mut out = Vec::new(self.alloc);
        match plan_update(
            self.alloc,
            &mut self.zones,
            &self.updates,
            now,
            true,
            frame.message,
            &mut out,
        ) {
            Ok(planned) => carry_out(self, frame, planned, &mut out, output),
            Err(_) => Err(Stop::Memory),
        }
    }
}

/// Writes what comes of a message of which this is planned, for which these octets are there.
#[tactic(auto, using(crate::proofs::Answered::by_keys, crate::proofs::Answered::by_refusal, crate::proofs::Answered::by_response, crate::proofs::Answered::stopped_keys, crate::proofs::Answered::stopped_refusal, crate::proofs::Answered::stopped_response))]
fn carry_out<C: Clock, J: Journals, W: Write>(
    server: &mut UpdatingServer<C, J>,
    frame: Frame<'_>,
    planned: PlannedUpdate,
    out: &mut Vec<u8>,
    output: &mut W,
) -> Result<(), Stop>
    ensures comes { OnOk result (Writes (Comes (framed_of frame.entry) planned out.old.items
        (record {
          access = server.old.access;
          updates = server.old.updates;
          zones = zones_in server.old.zones;
          entries = J.entries server.old.journals;
        })
        (record {
          access = server.new.access;
          updates = server.new.updates;
          zones = zones_in server.new.zones;
          entries = J.entries server.new.journals;
        }))
        (W.contents output.old) (W.contents output.new)) }
    ensures begun { OnErr result (Stops (IsBegun (framed_of frame.entry) planned out.old.items
        (record {
          access = server.old.access;
          updates = server.old.updates;
          zones = zones_in server.old.zones;
          entries = J.entries server.old.journals;
        })
        (record {
          access = server.new.access;
          updates = server.new.updates;
          zones = zones_in server.new.zones;
          entries = J.entries server.new.journals;
        }))
        (W.contents output.old) (W.contents output.new)) }
{
    match planned {
        PlannedUpdate::Other => answer_keyed_frame(
            server.alloc,
            &server.zones,
            &server.access,
            &mut server.clock,
            frame,
            out,
            output,
        ),
        PlannedUpdate::Refused => write_framed(out.as_slice(), output),
        PlannedUpdate::Unchanged => write_framed(out.as_slice(), output),
        PlannedUpdate::Updated(updated) => serve_updated(server, updated, out.as_slice(), output),
    }
}

/// Has the journal of a zone take an update, then has the zone after it served, and then writes the response.
#[tactic(auto, using(crate::proofs::Served::served, crate::proofs::Served::not_taken, crate::proofs::Served::not_served, crate::proofs::Served::not_written))]
fn serve_updated<C: Clock, J: Journals, W: Write>(
    server: &mut UpdatingServer<C, J>,
    updated: UpdatedZone,
    response: &[u8],
    output: &mut W,
) -> Result<(), Stop>
    ensures served { OnOk result (Writes (ServesUpdated updated response.now
        (record {
          access = server.old.access;
          updates = server.old.updates;
          zones = zones_in server.old.zones;
          entries = J.entries server.old.journals;
        })
        (record {
          access = server.new.access;
          updates = server.new.updates;
          zones = zones_in server.new.zones;
          entries = J.entries server.new.journals;
        }))
        (W.contents output.old) (W.contents output.new)) }
    ensures stopped { OnErr result (Stops (StopsUpdated updated response.now
        (record {
          access = server.old.access;
          updates = server.old.updates;
          zones = zones_in server.old.zones;
          entries = J.entries server.old.journals;
        })
        (record {
          access = server.new.access;
          updates = server.new.updates;
          zones = zones_in server.new.zones;
          entries = J.entries server.new.journals;
        }))
        (W.contents output.old) (W.contents output.new)) }
{
    if !server
        .journals
        .append(updated.zone.origin(), updated.frame.as_slice())
    {
        drop(updated);
        return Err(Stop::Write(ErrorKind::Other));
    }
    match commit_update(server.alloc, &mut server.zones, updated) {
        Ok(Commit::Done) => write_framed(response, output),
        // (Nobody else changes them meanwhile.)
        Ok(Commit::Overtaken) => Err(Stop::Memory),
        Err(_) => Err(Stop::Memory),
    }
}
