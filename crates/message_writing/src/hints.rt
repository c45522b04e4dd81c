//! Where names stand that a message has already.

use crate::fingerprints::Fingerprint;
use crate::name_writer::Cut;
use smallvec::SmallVec;
use std::alloc::{AllocError, Global};

/// Where the question begins: behind the twelve octets of the header (RFC 1035 section 4.1.1).
pub(crate) const AFTER_HEADER: usize = 12;

/// How many offsets are kept: for each of its labels, a name costs a look at each of them.
const MAX_OFFSETS: usize = 16;

/// Where a name may be.
#[derive(Clone, Copy, Default, PartialEq, Eq, Debug)]
pub(crate) struct Hint {
    pub(crate) offset: u16,
    /// The fingerprint of the name.
    pub(crate) fingerprint: Fingerprint,
}

/// Where labels stand that a message has in its question, in owners, and in names in data of the types of RFC 1035. A pointer leads to
/// none but these (RFC 3597 section 4).
#[derive(Drop)]
pub(crate) struct Hints {
    hints: SmallVec<Hint, 16>,
    /// Whether those of the question are kept.
    has_question: bool,
    /// Where the owner of the record stands that was written last; 0 if that isn't known.
    last_owner: u16,
    /// The last of the owners that a pointer stands for and that weren't what is asked for: mostly the origin of the zone, at whose
    /// end other names are cut too. Its offset is 0 if there is none.
    end: Hint,
}

impl Hints {
    /// No hints.
    pub(crate) fn new(alloc: Global) -> Hints {
        Hints {
            hints: SmallVec::new(alloc),
            has_question: false,
            last_owner: 0,
            end: Hint::default(),
        }
    }

    /// Where the owner of the record may stand that was written last: mostly the next record has the same.
    pub(crate) fn last_owner(&self) -> u16 {
        self.last_owner
    }

    /// Where the name may stand that names mostly end with.
    pub(crate) fn end(&self) -> Hint {
        self.end
    }

    /// The hints.
    pub(crate) fn as_slice(&self) -> &[Hint] {
        self.hints.as_slice()
    }

    /// Keeps the offsets of the labels of the question, which comes after the header, before any others. Many responses need none:
    /// their owners are all what is asked for, and their data have no names.
    pub(crate) fn note_question(&mut self, out: &[u8]) -> Result<(), AllocError> {
        if self.has_question {
            return Ok(());
        }
        self.has_question = true;
        self.note(out, AFTER_HEADER, question_in(out))
    }

    /// Keeps an owner as the name that names mostly end with, where a pointer stands for all of it.
    pub(crate) fn note_end(&mut self, cut: Cut) {
        if let Some(offset) = cut.pointer
            && cut.labels == 0
        {
            self.end = Hint {
                offset,
                fingerprint: cut.fingerprint,
            };
        }
    }

    /// Keeps where an owner stands that was written at an offset as it is cut, since the next record often has the same, and the
    /// offsets of its labels. Where there is no room for these, the last one gives way to that of its first label.
    pub(crate) fn note_owner(&mut self, out: &[u8], at: usize, cut: Cut) -> Result<(), AllocError> {
        if cut.labels == 0 {
            self.last_owner = cut.pointer.unwrap_or(0);
            return Ok(());
        }
        self.last_owner = if at < 16384 { at as u16 } else { 0 };
        if self.hints.len() >= MAX_OFFSETS
            && let Some(last) = self.hints.pop()
            && last.offset == self.end.offset
        {
            self.end = Hint::default();
        }
        self.note(out, at, cut)
    }

    /// Keeps the offsets of the labels of a name that was written at an offset as it is cut, where there is room.
    pub(crate) fn note(&mut self, out: &[u8], at: usize, cut: Cut) -> Result<(), AllocError> {
        let mut fingerprint = cut.fingerprint;
        let mut here = at;
        for _ in 0..cut.labels {
            if here >= 16384 || self.hints.len() >= MAX_OFFSETS {
                return Ok(());
            }
            let Some(label) = label_at(out, here) else {
                return Ok(());
            };
            self.hints.push(Hint {
                offset: here as u16,
                fingerprint,
            })?;
            fingerprint = fingerprint.without(label);
            here = here.saturating_add(1).saturating_add(label.len());
        }
        Ok(())
    }
}

/// The name of the question, which has no pointers, as it stands after the header.
fn question_in(out: &[u8]) -> Cut {
    let mut fingerprint = Fingerprint::OF_ROOT;
    let mut labels = 0usize;
    let mut here = AFTER_HEADER;
    for count in 0..127usize {
        match label_at(out, here) {
            Some(label) if !label.is_empty() => {
                fingerprint = fingerprint.with(label);
                here = here.saturating_add(1).saturating_add(label.len());
                labels = count + 1;
            }
            _ => break,
        }
    }
    Cut {
        labels,
        pointer: None,
        fingerprint,
    }
}

/// The label that stands at an offset behind its length.
fn label_at(out: &[u8], offset: usize) -> Option<&[u8]> {
    let (count, rest) = out.get(offset..)?.split_first()?;
    rest.get(..usize::from(*count))
}
