//! Journals from a later version on.
ghost use Rattle.std.specs.Prelude.{◌≡◌, ◌++◌, IfOk};
ghost use Rattle.journal_frames.specs.Journals.{journal_of};
ghost use Rattle.zone_journal.specs.Shortening.{left_out, leads_to};

use crate::entry_reader::read_entry;
use journal_frames::next_frame;
use std::alloc::Global;
use zone_proto::{ProtoError, RecordSet};

/// What a journal has behind the last entry that leads to the version with an SOA: what is to be replayed over that version, and its journal from
/// then on. All of the journal where no entry leads there, as where it was begun over that version. The SOA is given as
/// [`shown`](shown_zones::shown) gives it, signatures included, and doesn't come again in a later version. Refused by `Memory` alone.
///
/// So a journal that has grown is begun anew: a file of the zone as it is served is put in place of the zone's file, and then what this gives
/// in place of the journal. A program that loads the zone takes this part of the journal too, since it may have ended in between.
pub fn journal_from<'j>(
    alloc: Global,
    soa: &RecordSet,
    journal: &'j [u8],
) -> Result<&'j [u8], ProtoError>
    ensures { IfOk result
        (λ rest. journal.now ≡ journal_of (left_out soa.now journal.now) ++ rest.now) }
{
    let mut kept = journal;
    let mut rest = journal;
    while let Some((text, behind)) = next_frame(rest) {
        if leads_to(alloc, soa, text)? {
            kept = behind;
        }
        rest = behind;
    }
    Ok(kept)
}

/// Whether octets are the entry of a step to the version with an SOA.
fn leads_to(alloc: Global, soa: &RecordSet, text: &[u8]) -> Result<bool, ProtoError>
    ensures { IfOk result (λ leads. leads ≡ leads_to soa.now text.now) }
{
    let Some(step) = read_entry(alloc, text)? else {
        return Ok(false);
    };
    Ok(step.new_soa == *soa)
}
