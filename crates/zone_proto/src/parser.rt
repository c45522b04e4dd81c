//! Reads the text form of a name, octet by octet (RFC 1035 section 5.1).
ghost use Rattle.std.specs.Prelude.{◌≡◌, ◌⊎◌, ◌++◌, [], ◌∷◌, IfOk, IfErr, OnOk, IsOkUnless, Some};
ghost use Rattle.zone_proto.specs.Vectors.{octets_of};
ghost use Rattle.zone_proto.specs.declared.error.ProtoError.TheVariants.{BadText, Memory};
ghost use Rattle.zone_proto.specs.Faults.{IsBadText, IsFaultOrMemory};
ghost use Rattle.zone_proto.specs.Parse.{step_in, labels_at_end, with_octet, read_on, start};
ghost use Rattle.zone_proto.specs.TextForm.{is_digit, is_graphic, IsNameText};
ghost use Rattle.zone_proto.specs.Reading.{reader_of, fault_of_none};

use crate::error::ProtoError;
use std::alloc::Global;

/// Room for one label of any length that a name may have.
const INLINE_LABEL: usize = 63;

/// More labels than a name can have.
const MANY_LABELS: usize = 128;

/// In what part of a text its reader stands.
#[derive(Clone, Copy)]
enum Mode {
    /// At the start of the text.
    Start,
    /// After a dot that ends a label.
    AfterDot,
    /// After an octet of a label.
    InLabel,
    /// After a backslash.
    Escaped,
    /// After a backslash and a digit of this value.
    OneDigit(u8),
    /// After a backslash and two digits of this value.
    TwoDigits(u16),
}

/// What has been read of a text: the labels before the current one, and the octets of that one so far.
#[derive(Drop)]
struct Reader {
    mode: Mode,
    labels: Vec<Vec<u8>>,
    label: Vec<u8>,
}

impl Reader {
    /// Adds an octet to the current label.
    fn put(&mut self, octet: u8) -> Result<(), ProtoError>
        ensures ok { OnOk result (reader_of self.new ≡ with_octet (reader_of self.old) octet) }
        ensures err { IsOkUnless result Memory }
    {
        self.label.push(octet)?;
        self.mode = Mode::InLabel;
        Ok(())
    }

    /// Ends the current label, with room for its octets alone.
    fn end_label(&mut self, alloc: Global) -> Result<(), ProtoError>
        ensures ok { OnOk result
            (reader_of self.new
            ≡ record {
              mode = Mode.AfterDot;
              labels = octets_of self.old.labels.items ++ self.old.label.items ∷ [];
              label = [];
            }) }
        ensures err { IsOkUnless result Memory }
    {
        self.labels.push(Vec::from_slice(alloc, &self.label)?)?;
        self.label.clear();
        self.mode = Mode::AfterDot;
        Ok(())
    }

    /// Reads the next octet of the text.
    fn step(&mut self, alloc: Global, octet: u8) -> Result<(), ProtoError>
        ensures ok { OnOk result
            (step_in self.old.mode (reader_of self.old) octet ≡ Some (reader_of self.new)) }
        ensures err { IfErr result
            (IsFaultOrMemory (fault_of_none (step_in self.old.mode (reader_of self.old) octet))) }
    {
        match self.mode {
            Mode::Start | Mode::AfterDot | Mode::InLabel => {
                if octet == b'.' {
                    self.end_label(alloc)
                } else if octet == b'\\' {
                    self.mode = Mode::Escaped;
                    Ok(())
                } else if is_graphic(octet) {
                    self.put(octet)
                } else {
                    Err(ProtoError::BadText)
                }
            }
            Mode::Escaped => {
                if is_digit(octet) {
                    self.mode = Mode::OneDigit(octet - b'0');
                    Ok(())
                } else if is_graphic(octet) {
                    self.put(octet)
                } else {
                    Err(ProtoError::BadText)
                }
            }
            Mode::OneDigit(tens) => {
                if !is_digit(octet) {
                    return Err(ProtoError::BadText);
                }
                self.mode = Mode::TwoDigits(u16::from(tens) * 10 + u16::from(octet - b'0'));
                Ok(())
            }
            Mode::TwoDigits(tens) => {
                if !is_digit(octet) {
                    return Err(ProtoError::BadText);
                }
                let value = u32::from(tens) * 10 + u32::from(octet - b'0');
                if value > 255 {
                    return Err(ProtoError::BadText);
                }
                self.put(value as u8)
            }
        }
    }

    /// The labels at the end of the text.
    fn finish(self, alloc: Global) -> Result<Vec<Vec<u8>>, ProtoError>
        ensures ok { IfOk result
            (λ ls. labels_at_end self.mode (reader_of self) ≡ Some (octets_of ls.items)) }
        ensures err { IfErr result
            (IsFaultOrMemory (fault_of_none (labels_at_end self.mode (reader_of self)))) }
    {
        let Reader {
            mode,
            mut labels,
            label,
        } = self;
        match mode {
            Mode::AfterDot => Ok(labels),
            Mode::InLabel => {
                labels.push(Vec::from_slice(alloc, &label)?)?;
                Ok(labels)
            }
            _ => Err(ProtoError::BadText),
        }
    }
}

fn is_digit(octet: u8) -> bool
    ensures { result ≡ is_digit octet }
{
    octet.is_ascii_digit()
}

/// A printing ASCII character that is no space.
fn is_graphic(octet: u8) -> bool
    ensures { result ≡ is_graphic octet }
{
    octet >= 33 && octet <= 126
}

/// How many labels the text has at most, if they make a name.
fn label_count(bytes: &[u8]) -> usize {
    let mut dots = 0usize;
    for octet in bytes {
        if *octet == b'.' && dots < MANY_LABELS {
            dots += 1;
        }
    }
    match bytes {
        [.., b'.'] => dots,
        _ => dots + 1,
    }
}

/// The labels of a text of two octets or more.
fn read(alloc: Global, bytes: &[u8]) -> Result<Vec<Vec<u8>>, ProtoError>
    ensures ok { IfOk result (λ ls. read_on bytes.now start ≡ Some (octets_of ls.items)) }
    ensures err { IfErr result (IsFaultOrMemory (fault_of_none (read_on bytes.now start))) }
{
    let mut reader = Reader {
        mode: Mode::Start,
        labels: Vec::with_capacity(alloc, label_count(bytes))?,
        label: Vec::with_capacity(alloc, INLINE_LABEL)?,
    };
    for octet in bytes {
        reader.step(alloc, *octet)?;
    }
    reader.finish(alloc)
}

/// The labels of whose text form a text is. Gives `BadText` if it is of none, and `Memory`.
#[tactic(auto, using(crate::proofs::Texts::TextForms::read_form, crate::proofs::Texts::TextForms::bad_form))]
pub(crate) fn read_labels(alloc: Global, text: &str) -> Result<Vec<Vec<u8>>, ProtoError>
    ensures ok { IfOk result (λ ls. IsNameText text.now (octets_of ls.items)) }
    ensures err { IfErr result (λ e. (e ≡ Memory) ⊎ (IsBadText text.now × (e ≡ BadText))) }
{
    let bytes = text.as_bytes();
    match bytes {
        [] => Err(ProtoError::BadText),
        [b'.'] => Ok(Vec::new(alloc)),
        _ => read(alloc, bytes),
    }
}
