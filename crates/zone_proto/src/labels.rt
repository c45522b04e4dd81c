//! Lists of labels: whether they make a name, and copies of them.
ghost use Rattle.std.specs.Prelude.{◌∷◌, OnOk};
ghost use Rattle.zone_proto.specs.Names.{IsLabel, IsName};
ghost use Rattle.zone_proto.specs.Vectors.{octets_of};
ghost use Rattle.zone_proto.specs.Results.{ReportsFault, ReportsLabelFault};

use crate::error::ProtoError;
use crate::labels_iter::Labels;
use crate::wire::wire_length;

/// The most octets that a label may have (RFC 1035 section 2.3.4).
pub(crate) const LONGEST_LABEL: usize = 63;

/// The most octets that the wire form of a name may have (RFC 1035 section 2.3.4).
pub(crate) const LONGEST_NAME: usize = 255;

/// Whether the labels make a name, and else the first fault.
pub(crate) fn check_labels(labels: &[Vec<u8>]) -> Result<(), ProtoError>
    ensures fault { ReportsFault result (octets_of labels.now) }
    ensures valid { OnOk result (IsName (octets_of labels.now)) }
{
    let mut wire = 0usize;
    for label in labels {
        check_label(label)?;
        wire = (wire + 1 + label.len()).min(LONGEST_NAME + 1);
    }
    if wire + 1 > LONGEST_NAME {
        return Err(ProtoError::NameTooLong);
    }
    Ok(())
}

/// Whether a name is still one with the label before its labels, and else the first fault.
pub(crate) fn check_prepended(label: &[u8], labels: Labels<'_>) -> Result<(), ProtoError>
    requires { IsName labels }
    ensures fault { ReportsFault result (label.now ∷ labels.entry) }
    ensures valid { OnOk result (IsName (label.now ∷ labels.entry)) }
{
    check_label(label)?;
    if label.len() + 1 + wire_length(labels) > LONGEST_NAME {
        return Err(ProtoError::NameTooLong);
    }
    Ok(())
}

/// Whether these octets make a label, and else the fault.
fn check_label(label: &[u8]) -> Result<(), ProtoError>
    ensures fault { ReportsLabelFault result label.now }
    ensures valid { OnOk result (IsLabel label.now) }
{
    if label.is_empty() {
        return Err(ProtoError::EmptyLabel);
    }
    if label.len() > LONGEST_LABEL {
        return Err(ProtoError::LabelTooLong);
    }
    Ok(())
}
