//! The journal of a zone.

use crate::calls::Case;
use compared_rows::read_octets;
use journal_frames::push_frame;
use kept_steps::KeptSteps;
use line_text::{TextError, Words};
use shown_zones::{ZoneStep, shown, step_between};
use std::alloc::Global;
use zone_difference::copied;
use zone_journal::{EntryFault, push_step};
use zone_map::RecordMap;
use zone_proto::LowerName;

/// The most octets of a frame that a row may give.
const LONGEST: usize = 65_535;

/// A journal, and the versions that the zone had since it was begun.
#[derive(Drop)]
pub struct Journal {
    /// Its octets.
    pub octets: Vec<u8>,
    /// The versions as answers show them, the one that it was begun over first.
    pub shown: Vec<RecordMap>,
    /// The last version.
    pub last: RecordMap,
    /// The steps from version to version.
    pub steps: Vec<ZoneStep>,
    /// The newest of them, which are kept.
    pub kept: KeptSteps,
}

impl Journal {
    /// The journal of a zone without records.
    pub fn new(alloc: Global) -> Journal {
        Journal {
            octets: Vec::new(alloc),
            shown: Vec::new(alloc),
            last: RecordMap::new(alloc),
            steps: Vec::new(alloc),
            kept: KeptSteps::new(alloc, 0),
        }
    }
}

/// Begins the journal of the zone as it is.
pub fn journal_answer(alloc: Global, case: &mut Case) -> Result<String, TextError> {
    let mut versions = Vec::new(alloc);
    versions.push(shown(alloc, &case.zone)?)?;
    case.journal = Journal {
        octets: Vec::new(alloc),
        shown: versions,
        last: copied(alloc, &case.zone)?,
        steps: Vec::new(alloc),
        kept: KeptSteps::new(alloc, 0),
    };
    Ok(format!(in alloc; "begun")?)
}

/// Puts the step to the zone as it is behind the journal.
pub fn version_answer(alloc: Global, case: &mut Case) -> Result<String, TextError> {
    let origin = LowerName::new(&case.origin)?;
    let Some(step) = step_between(alloc, &origin, &case.journal.last, &case.zone)? else {
        return Ok(format!(in alloc; "no SOA")?);
    };
    match push_step(alloc, &case.origin, &step, &mut case.journal.octets) {
        Ok(()) => {
            case.journal.shown.push(shown(alloc, &case.zone)?)?;
            keep_step(alloc, &origin, case)?;
            case.journal.last = copied(alloc, &case.zone)?;
            case.journal.steps.push(step)?;
            Ok(format!(in alloc; "put")?)
        }
        Err(EntryFault::Memory) => Err(TextError::Memory),
        Err(fault) => Ok(format!(in alloc; "{fault:?}")?),
    }
}

/// Keeps the step to the zone as it is.
fn keep_step(alloc: Global, origin: &LowerName, case: &mut Case) -> Result<(), TextError> {
    if let Some(step) = step_between(alloc, origin, &case.journal.last, &case.zone)? {
        case.journal.kept.push(step)?;
    }
    Ok(())
}

/// Puts octets in a frame behind the journal.
pub fn frame_answer(alloc: Global, case: &mut Case, text: &str) -> Result<String, TextError> {
    let mut words = Words::new(text.as_bytes());
    let octets = read_octets(alloc, &mut words)?;
    words.end()?;
    if octets.len() > LONGEST {
        return Err(TextError::BadText);
    }
    push_frame(&mut case.journal.octets, octets.as_slice())?;
    Ok(format!(in alloc; "put")?)
}
