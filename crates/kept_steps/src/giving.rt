//! The steps from a version on.
ghost use Rattle.std.specs.Prelude.{◌≡◌, option_map, if◌then◌else◌};
ghost use Rattle.std.specs.List.{list_any};
ghost use Rattle.difference_messages.specs.Choosing.{begins_at};
ghost use Rattle.kept_steps.specs.Giving.{from_only};

use difference_messages::{begins_at, has_step_at};
use shown_zones::ZoneStep;

/// The steps from the one on that begins at a serial; none where none does, or a second one does.
#[tactic(auto, unfolding(crate::specs::Giving::from_only))]
pub(crate) fn from_only(serial: u32, steps: &[ZoneStep]) -> Option<&[ZoneStep]>
    ensures { option_map (λ x. x.now) result ≡ from_only serial steps.now }
{
    let mut rest = steps;
    while let Some((step, behind)) = rest.split_first() {
        if begins_at(serial, step) {
            return unless_again(serial, rest, behind);
        }
        rest = behind;
    }
    None
}

/// Steps from the first one on, unless a later one begins at the serial at which it does.
fn unless_again<'s>(
    serial: u32,
    steps: &'s [ZoneStep],
    behind: &[ZoneStep],
) -> Option<&'s [ZoneStep]>
    ensures { option_map (λ x. x.now) result
        ≡ (if list_any (begins_at serial) behind.now then None else Some steps.now) }
{
    if has_step_at(serial, behind) {
        return None;
    }
    Some(steps)
}
