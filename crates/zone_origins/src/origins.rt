//! The nearest origin at or above a name.
ghost use Rattle.std.specs.Prelude.{IfOk, option_map};
ghost use Rattle.zone_origins.specs.Nearest.{IsNearestIfAny, IsMeeting};

use std::alloc::AllocError;
use std::collections::BTreeMap;
use zone_proto::{LowerName, ProtoError};

/// What is kept for the longest of some names that is a name or is above it (RFC 1034 section 4.3.2 step 2), and that
/// name; None if none of them is or does. Fails only for lack of memory.
///
/// The last name that isn't after the one that is sought is looked up first: in canonical order (RFC 4034 section 6.1)
/// a name comes before those below it, and these stand together. Where it isn't above, what both are below is sought
/// next. So a lookup costs as many searches as names of that kind stand on the way, and no more than the first of them
/// has labels, however many the sought name has; mostly one.
pub fn nearest<'m, V>(
    entries: &'m BTreeMap<LowerName, V>,
    name: &LowerName,
) -> Result<Option<(&'m LowerName, &'m V)>, AllocError>
    ensures { IfOk result (λ found. IsNearestIfAny name.now entries.now.entries
        (option_map (λ p. (p.0.now, p.1.now)) found)) }
{
    let Some((last, value)) = entries.range(..=name).next_back() else {
        return Ok(None);
    };
    if last.zone_of(name) {
        return Ok(Some((last, value)));
    }
    let Ok(meeting) = meeting_of(last, name) else {
        return Err(AllocError);
    };
    nearest(entries, &meeting)
}

/// The longest name that two names are at or below.
fn meeting_of(left: &LowerName, right: &LowerName) -> Result<LowerName, ProtoError>
    ensures { IfOk result (IsMeeting left.now right.now) }
{
    let mut meeting = left.clone()?;
    while !meeting.zone_of(right) {
        meeting.shorten();
    }
    Ok(meeting)
}
