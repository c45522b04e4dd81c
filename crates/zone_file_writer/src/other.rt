//! The data of types without a case of their own, printed in the form of their type, or as `\#` where they aren't of that form.
ghost use Rattle.std.specs.Prelude.{◌≡◌, ◌∷◌, IfOk, Some, option_map, string_bytes};
ghost use Rattle.record_fields.specs.Rows.{row_of};
ghost use Rattle.zone_file_writer.specs.Rows.{behind_spaces, other_words, words_by_row};
ghost use Rattle.zone_file_writer.specs.Words.{words_text};

use crate::octets::OctetsText;
use crate::rows::row_text;
use record_fields::row_of;
use std::alloc::{AllocError, Global};
use std::fmt;
use zone_proto::OtherData;

/// Data by their type, behind a space. Where no memory is found, writing fails.
#[derive(Drop)]
pub(crate) struct OtherText<'r>(pub Global, pub &'r OtherData);

impl fmt::Display for OtherText<'_> {
    ghost output = { λ d. Some
        (32 ∷ words_text (other_words d.1.now.record_type.0 d.1.now.octets)) };

    fn fmt<W: fmt::Write>(&self, f: &mut fmt::Formatter<W>) -> fmt::Result {
        match words_of(self.0, self.1) {
            Ok(Some(text)) => write!(f, "{text}"),
            Ok(None) => write!(f, " {}", OctetsText(self.1.octets())),
            Err(_) => Err(fmt::Error),
        }
    }
}

/// The words of data in the form of their type, each with a space before it; none if the type has no row in the table, or the
/// octets aren't of its form.
fn words_of(alloc: Global, other: &OtherData) -> Result<Option<String>, AllocError>
    ensures { IfOk result (λ text. option_map string_bytes text ≡ option_map behind_spaces
        (words_by_row (row_of other.now.record_type.0) other.now.octets)) }
{
    match row_of(other.record_type().0) {
        Some(row) => row_text(alloc, row, other.octets()),
        None => Ok(None),
    }
}
