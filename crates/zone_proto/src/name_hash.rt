//! What names feed a hasher: equal names feed it alike.
ghost use Rattle.std.specs.Prelude.{◌≡◌, map, fold};
ghost use Rattle.std.specs.Char.{to_ascii_lowercase};
ghost use Rattle.std.specs.Hash as fed;
ghost use Rattle.zone_proto.specs.Names.{lower};
ghost use Rattle.zone_proto.specs.NameLaws.{name_eq_fed, caseless_eq_fed};

use crate::labels_iter::Labels;
use crate::lower_name::LowerName;
use crate::name::Name;
use std::hash::{Hash, Hasher};

/// As the name in lower case is hashed.
impl Hash for Name {
    ghost hash_input = { λ n. fed.slice (fed.slice fed.u8) (lower n) };

    ghost respects_eq = { caseless_eq_fed };

    fn hash<H: Hasher>(&self, state: &mut H) {
        hash_labels(self.labels(), state);
    }
}

/// The count of labels, and each label as a slice of octets.
impl Hash for LowerName {
    ghost hash_input = { fed.slice (fed.slice fed.u8) };

    ghost respects_eq = { name_eq_fed };

    fn hash<H: Hasher>(&self, state: &mut H) {
        hash_labels(self.labels(), state);
    }
}

/// Feeds the count of labels, and each label in lower case.
fn hash_labels<H: Hasher>(labels: Labels<'_>, state: &mut H)
    ensures { state.new
        ≡ fold H.write state.old (fed.slice (fed.slice fed.u8) (lower labels.entry)) }
{
    state.write_usize(labels.len());
    for label in labels {
        hash_caseless(label, state);
    }
}

/// Feeds a label in lower case.
fn hash_caseless<H: Hasher>(label: &[u8], state: &mut H)
    ensures { state.new
        ≡ fold H.write state.old (fed.slice fed.u8 (map to_ascii_lowercase label.now)) }
{
    state.write_usize(label.len());
    for octet in label {
        state.write_u8(octet.to_ascii_lowercase());
    }
}
