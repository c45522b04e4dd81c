//! The zone that a journal leads to.
ghost use Rattle.std.specs.Prelude.{◌≡◌, map, option_map, IfOk};
ghost use Rattle.journal_frames.specs.Journals.{frames_in};
ghost use Rattle.shown_zones.specs.Steps.{step_of};
ghost use Rattle.zone_journal.specs.Replays.{replayed, steps_of, GivesReplayed};

use crate::entry_reader::read_entry;
use journal_frames::next_frame;
use shown_zones::{ZoneStep, all_stepped};
use std::alloc::Global;
use zone_difference::DifferenceError;
use zone_map::RecordMap;
use zone_proto::ProtoError;

/// Why a journal leads to no zone.
#[derive(Clone, Copy, PartialEq, Eq, Debug)]
pub enum ReplayFault {
    /// One of its frames has no entry.
    NoEntry,
    /// One of its entries doesn't fit the zone before it: the journal was begun over another zone.
    Misfit,
    /// A growth that the allocator refused.
    Memory,
}

/// Want of memory is `Memory`.
impl From<ProtoError> for ReplayFault {
    ghost use Rattle.zone_journal.specs.declared.replaying.ReplayFault.TheVariants.{Memory};

    ghost from_gives = { λ _ e. e ≡ Memory };

    fn from(_: ProtoError) -> ReplayFault {
        ReplayFault::Memory
    }
}

/// The zone that the entries of a journal make of the one that it was begun over, as [`shown`](shown_zones::shown) gives it, one entry after
/// the other. The zone is only read. What stands behind the last whole frame counts for nothing.
///
/// # Errors
///
/// `NoEntry` where a whole frame has no entry, `Misfit` where all have one and one of them doesn't fit the zone before it, and `Memory`.
pub fn replayed(alloc: Global, zone: &RecordMap, journal: &[u8]) -> Result<RecordMap, ReplayFault>
    ensures { GivesReplayed result (replayed zone.now journal.now) }
{
    let Some(steps) = steps_of(alloc, journal)? else {
        return Err(ReplayFault::NoEntry);
    };
    match all_stepped(alloc, zone, steps) {
        Ok(after) => Ok(after),
        Err(DifferenceError::Memory) => Err(ReplayFault::Memory),
        Err(_) => Err(ReplayFault::Misfit),
    }
}

/// The steps of the entries in the whole frames of a journal, as answers show them; none where one of them has no entry. What stands behind the last
/// whole frame counts for nothing. Refused by `Memory` alone.
pub fn steps_of(alloc: Global, journal: &[u8]) -> Result<Option<Vec<ZoneStep>>, ProtoError>
    ensures { IfOk result (λ steps. option_map (λ v. map step_of v.items) steps
        ≡ steps_of (frames_in journal.now)) }
{
    let mut steps = Vec::new(alloc);
    let mut rest = journal;
    while let Some((text, behind)) = next_frame(rest) {
        let Some(step) = read_entry(alloc, text)? else {
            return Ok(None);
        };
        steps.push(step)?;
        rest = behind;
    }
    Ok(Some(steps))
}
