//! The records of a zone file that comes in pieces.
ghost use Rattle.std.specs.Prelude.{◌≡◌, ◌++◌, ◌≤◌, ◌<◌, ℕ, List, length, drop, [], ◌∷◌, IfOk, IfErr};
ghost use Rattle.zone_scanner.specs.Steps.{events_from};

use crate::context::Context;
use crate::error::{ZoneError, ZoneFault};
use crate::placed::PlacedRecord;
use crate::records::read_entry;
use std::alloc::Global;
use std::marker::Model;
use zone_proto::Name;
use zone_scanner::EntryReader;

/// Reads the records of a zone file, piece by piece, and keeps no more of it than the entry in hand. Contracts say what it makes
/// of the rest of the text, whatever that is (`outcomes_from`): the records that are left, and the first fault if there is one.
#[derive(Drop)]
pub struct ZoneReader {
    entries: EntryReader,
    context: Context,
}

impl Model for ZoneReader {
    ghost use Rattle.zone_file.specs.Zones.{Standing};

    ghost Value = { Standing };

    ghost view = { λ z. record { reader = z.entries; context = z.context } };
}

impl ZoneReader {
    ghost use Rattle.zone_file.specs.Faults.{as_fault};
    ghost use Rattle.zone_file.specs.Zones.{outcomes_from, zone_of, with_record, Stopped};

    /// At the beginning of a zone file of this origin. Doesn't allocate.
    #[tactic(auto, using(crate::proofs::ZoneFacts::same_outcomes))]
    pub fn new(alloc: Global, origin: Name) -> ZoneReader
        ensures { (text : List ℕ) → outcomes_from text result ≡ zone_of origin text }
    {
        ZoneReader {
            entries: EntryReader::new(alloc),
            context: Context {
                origin,
                owner: None,
                ttl: None,
                last_ttl: None,
            },
        }
    }

    /// Takes octets from the front of the next piece of the text, up to the end of the first entry that ends in it, and gives
    /// how many these are, and the record, if the entry is one; or takes the whole piece, where none ends.
    ///
    /// # Errors
    ///
    /// The first fault of the text, if it is in this piece before the end of an entry, or in that entry. Its only error
    /// is `Memory`. The reader is of no use then: nothing is said of what it makes of further pieces.
    #[tactic(auto, using(crate::proofs::ZoneFacts::readings))]
    pub fn take_record(
        &mut self,
        alloc: Global,
        piece: &[u8],
    ) -> Result<(usize, Option<PlacedRecord>), ZoneError>
        // Whatever follows the piece, what is read of the text is this record and what is read of the rest.
        ensures ok { IfOk result (λ t. (more : List ℕ) →
            outcomes_from (piece.now ++ more) self.old
            ≡ with_record t.1 (outcomes_from (drop t.0 piece.now ++ more) self.new)) }
        ensures within { IfOk result (λ t. t.0 ≤ length piece.now) }
        ensures progress { IfOk result (λ t. 0 < length piece.now → 0 < t.0) }
        ensures fault { IfErr result (λ e. (f : ZoneFault) → e ≡ ZoneError.Fault f →
            (more : List ℕ) → outcomes_from (piece.now ++ more) self.old ≡ Stopped f ∷ []) }
    {
        let (count, entry) = self.entries.take_entry(alloc, piece)?;
        match entry {
            None => Ok((count, None)),
            Some(entry) => {
                let given = read_entry(alloc, &mut self.context, &entry)?;
                Ok((count, given))
            }
        }
    }

    /// Ends the text, and gives the record of its last line, if that has no line end.
    ///
    /// # Errors
    ///
    /// A fault of the last line, or where the text may not end here. Its only error is `Memory`.
    #[tactic(auto, using(crate::proofs::ZoneFacts::readings))]
    pub fn finish(self, alloc: Global) -> Result<Option<PlacedRecord>, ZoneError>
        ensures ok { IfOk result (λ r. outcomes_from [] self ≡ with_record r []) }
        ensures fault { IfErr result (λ e. (f : ZoneFault) → e ≡ ZoneError.Fault f →
            outcomes_from [] self ≡ Stopped f ∷ []) }
    {
        let ZoneReader {
            entries,
            mut context,
        } = self;
        match entries.finish(alloc)? {
            None => Ok(None),
            Some(entry) => Ok(read_entry(alloc, &mut context, &entry)?),
        }
    }
}
