//! Where in a text an octet stands.
ghost use Rattle.std.specs.Prelude.{◌≡◌};
ghost use Rattle.zone_scanner.specs.Signs.{first_place, place_along, place_behind};

/// The place of an octet in a text: its line, and its column among the octets of the line. Both are counted from 1, and lines
/// by line feeds. Neither goes past 2^64 - 1.
#[derive(Clone, Copy, PartialEq, Eq, Debug)]
pub struct Place {
    pub line: u64,
    pub column: u64,
}

impl Place {
    /// The place of the first octet of a text.
    pub fn first() -> Place
        ensures { result ≡ first_place }
    {
        Place { line: 1, column: 1 }
    }

    /// The place of the octet behind this one.
    pub(crate) fn behind(self, octet: u8) -> Place
        ensures { result ≡ place_behind self octet }
    {
        if octet == b'\n' {
            Place {
                line: self.line.saturating_add(1),
                column: 1,
            }
        } else {
            Place {
                line: self.line,
                column: self.column.saturating_add(1),
            }
        }
    }

    /// The place so many octets further in the same line.
    pub(crate) fn along(self, count: usize) -> Place
        ensures { result ≡ place_along self count }
    {
        Place {
            line: self.line,
            column: self.column.saturating_add(count as u64),
        }
    }
}
