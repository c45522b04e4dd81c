//! The parts of a text between separators, one after the other.
ghost use Rattle.std.specs.Prelude.{◌≡◌, ◌∷◌};
ghost use Rattle.line_text.specs.Parts.{parts, parts_left};

/// The part of a text before the first separator, and what follows that, or None if there is no separator.
pub(crate) fn part_before(text: &[u8], separator: u8) -> (&[u8], Option<&[u8]>)
    ensures { parts separator text.now ≡ result.0.now ∷ parts_left separator result.1 }
{
    match text.iter().position(|octet| *octet == separator) {
        None => (text, None),
        Some(at) => {
            let (part, from) = text.split_at(at);
            (part, Some(&from[1..]))
        }
    }
}
