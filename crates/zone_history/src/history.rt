//! The versions of a zone.
ghost use Rattle.std.specs.Prelude.{◌≡◌, Some, None, option_map, if◌then◌else◌};
ghost use Rattle.std.specs.Option.{option_or};
ghost use Rattle.zone_history.specs.Histories.{since};

use zone_difference::Difference;

/// A version that a zone had, and what made the next one of it.
#[derive(Drop)]
pub struct Version {
    /// The serial of its SOA.
    pub serial: u32,
    /// The difference from it to the next one.
    pub difference: Difference,
}

/// Of the versions of a zone, the oldest one first, those from the last one on that has a serial: what a secondary lacks that has the zone of
/// this serial (RFC 1995 section 4). None where no version has it: such a secondary is to get the whole zone. Where a serial came twice, the
/// last version of it counts. Doesn't allocate.
#[tactic(auto, unfolding(crate::specs::Histories::since))]
pub fn versions_since(versions: &[Version], serial: u32) -> Option<&[Version]>
    ensures { option_map (λ x. x.now) result ≡ since serial versions.now }
{
    let mut rest = versions;
    let mut found = None;
    while let Some((version, behind)) = rest.split_first() {
        found = latest(version.serial == serial, rest, found);
        rest = behind;
    }
    found
}

/// What is left, if it begins with a version of the serial; else what was found so far.
fn latest<'a>(
    is_of_serial: bool,
    rest: &'a [Version],
    found: Option<&'a [Version]>,
) -> Option<&'a [Version]>
    ensures { option_map (λ x. x.now) result
        ≡ option_or (if is_of_serial then Some rest.now else None)
        (option_map (λ x. x.now) found.entry) }
{
    if is_of_serial {
        return Some(rest);
    }
    found
}
