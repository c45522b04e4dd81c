//! The wire form of names (RFC 1035 section 3.1).
ghost use Rattle.std.specs.Prelude.{◌≡◌, ◌≤◌, ◌∷◌, ◌++◌, length, map, IfOk, OnOk};
ghost use Rattle.std.specs.Char.{to_ascii_lowercase};
ghost use Rattle.zone_proto.specs.Names.{lower, wire_form, wire_length, IsName};

use crate::labels_iter::Labels;
use std::alloc::{AllocError, Global};

/// How many octets the wire form of a name has.
pub(crate) fn wire_length(labels: Labels<'_>) -> usize
    requires { wire_length labels ≤ 255 }
    ensures { result ≡ wire_length labels.entry }
{
    let mut octets = 0usize;
    for label in labels {
        octets += label.len() + 1;
    }
    octets + 1
}

/// The wire form of a name, its letters in lower case.
pub(crate) fn write_wire(alloc: Global, labels: Labels<'_>) -> Result<Vec<u8>, AllocError>
    requires { IsName labels }
    ensures { IfOk result (λ bytes. bytes.items ≡ wire_form (lower labels.entry)) }
{
    let mut bytes = Vec::with_capacity(alloc, wire_length(labels.clone()))?;
    for label in labels {
        push_label(&mut bytes, label)?;
    }
    bytes.push(0)?;
    Ok(bytes)
}

/// Appends a label's length and its octets in lower case.
fn push_label(bytes: &mut Vec<u8>, label: &[u8]) -> Result<(), AllocError>
    requires { length label.now ≤ 63 }
    ensures { OnOk result
        (bytes.new.items ≡ bytes.old.items ++ length label.now ∷ map to_ascii_lowercase label.now) }
{
    bytes.push(label.len() as u8)?;
    for octet in label {
        bytes.push(octet.to_ascii_lowercase())?;
    }
    Ok(())
}
