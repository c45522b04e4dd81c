//! Where words stand.
ghost use Rattle.std.specs.Prelude.{◌≡◌};
ghost use Rattle.zone_scanner.specs.Signs.{place_behind};
ghost use Rattle.key_files.specs.Places.{place_at};

use crate::words::front;
use zone_scanner::Place;

/// The place of the octet at an offset of a text.
#[tactic(auto, using(crate::proofs::Places::along_further))]
pub(crate) fn place_at(text: &[u8], at: usize) -> Place
    ensures { result ≡ place_at at text.now }
{
    let mut place = Place::first();
    for octet in front(text, at) {
        place = place_behind(place, *octet);
    }
    place
}

/// The place of the octet behind another.
fn place_behind(place: Place, octet: u8) -> Place
    ensures { result ≡ place_behind place octet }
{
    if octet == b'\n' {
        Place {
            line: place.line.saturating_add(1),
            column: 1,
        }
    } else {
        Place {
            line: place.line,
            column: place.column.saturating_add(1),
        }
    }
}
