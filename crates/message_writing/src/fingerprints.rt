//! Fingerprints of names: names of the same labels have the same, and other names mostly have another, so that few names are compared
//! label by label.

/// What the sum is multiplied by for each further label.
const STEP: u32 = 0x0100_0193;

/// The inverse of `STEP` modulo 2^32.
const BACK: u32 = 0x359c_449b;

/// The fingerprint of a name.
#[derive(Clone, Copy, Default, PartialEq, Eq, Debug)]
pub(crate) struct Fingerprint {
    sum: u32,
    /// `STEP` to the power of the number of labels.
    scale: u32,
}

impl Fingerprint {
    /// The fingerprint of the root.
    pub(crate) const OF_ROOT: Fingerprint = Fingerprint { sum: 0, scale: 1 };

    /// The fingerprint of the name with this label behind its last.
    pub(crate) fn with(self, last: &[u8]) -> Fingerprint {
        Fingerprint {
            sum: self.sum.wrapping_mul(STEP).wrapping_add(part_of(last)),
            scale: self.scale.wrapping_mul(STEP),
        }
    }

    /// The fingerprint of the name with the labels of another behind its last.
    pub(crate) fn followed_by(self, end: Fingerprint) -> Fingerprint {
        Fingerprint {
            sum: self.sum.wrapping_mul(end.scale).wrapping_add(end.sum),
            scale: self.scale.wrapping_mul(end.scale),
        }
    }

    /// The fingerprint of the name without its first label, which is this one.
    pub(crate) fn without(self, first: &[u8]) -> Fingerprint {
        let scale = self.scale.wrapping_mul(BACK);
        Fingerprint {
            sum: self.sum.wrapping_sub(part_of(first).wrapping_mul(scale)),
            scale,
        }
    }
}

/// What a label adds: its length, and its first and its last octet.
fn part_of(label: &[u8]) -> u32 {
    match (label.first(), label.last()) {
        (Some(first), Some(last)) => {
            u32::from(*first) * 65_536 + u32::from(*last) * 256 + (label.len() % 256) as u32
        }
        _ => 0,
    }
}
