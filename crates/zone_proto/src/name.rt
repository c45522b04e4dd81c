//! Names that keep the case of their letters.
ghost use Rattle.std.specs.Prelude.{◌≡◌, ◌↔◌, [], ◌∷◌, length, drop, IsTrue, IfOk, IsOkUnless, Some, None};
ghost use Rattle.zone_proto.specs.Names.{lower, suffixes, wire_form, wildcard_of, IsAtOrAbove, IsLowerName, IsName, IsWildcard};
ghost use Rattle.zone_proto.specs.Ranges.{IsNameInRange};
ghost use Rattle.zone_proto.specs.Forms.{labels_of};
ghost use Rattle.zone_proto.specs.Vectors.{octets_of};
ghost use Rattle.zone_proto.specs.Suffixes.{suffixes_left};
ghost use Rattle.zone_proto.specs.TextForm.{IsNameText};
ghost use Rattle.zone_proto.specs.Results.{IsCopy, ReportsFault, ReportsFaultOrMemory, ReportsTextFault};
ghost use Rattle.zone_proto.specs.WireForms.{ReportsWireFault};

use crate::error::ProtoError;
use crate::form::Form;
use crate::labels::{check_labels, check_prepended};
use crate::labels_iter::Labels;
use crate::parser::read_labels;
use crate::suffixes::Suffixes;
use crate::unescaped::read_unescaped;
use crate::wire::write_wire;
use crate::wire_reader::read_wire;
use std::alloc::Global;
use std::marker::Model;

/// A domain name that keeps the case of its letters.
///
/// A name is the list of its labels, leftmost first, and always absolute; the root has no label. A label has 1 to 63
/// octets, and the wire form of the name at most 255 (RFC 1035 sections 2.3.4 and 3.1). Names are equal, ordered and
/// hashed ignoring the case of ASCII letters (RFC 4034 section 6.1, RFC 4343).
///
/// A name that was read or copied is copied without memory if its wire form has at most 31 octets, and no label an octet 0 or 1.
#[derive(Debug, Drop)]
pub struct Name {
    form: Form,
}

impl Model for Name {
    ghost use Rattle.std.specs.Prelude.{List, ℕ};
    ghost use Rattle.zone_proto.specs.Names.{IsName};

    ghost Value = { List (List ℕ) };

    ghost use Rattle.zone_proto.specs.Forms.{labels_of};

    ghost view = { λ n. labels_of n.form };

    ghost invariant = { λ n. IsName (labels_of n.form) };
}

impl Name {
    /// The root, which has no label. Doesn't allocate.
    pub fn root(alloc: Global) -> Name
        ensures { result ≡ [] }
    {
        Name {
            form: Form::root(alloc),
        }
    }

    /// The name of these labels, leftmost first. Doesn't allocate.
    ///
    /// From the left, the first empty label gives `EmptyLabel` or the first one over 63 octets `LabelTooLong`; then a
    /// wire form of more than 255 octets gives `NameTooLong`.
    pub fn from_labels(labels: Vec<Vec<u8>>) -> Result<Name, ProtoError>
        ensures ok { IfOk result (λ n. n ≡ octets_of labels.items) }
        ensures refusal { ReportsFault result (octets_of labels.items) }
    {
        check_labels(&labels)?;
        Ok(Name {
            form: Form::Listed(labels),
        })
    }

    /// Reads the text form of a name (RFC 1035 section 5.1).
    ///
    /// `.` is the root. Else labels are separated by dots, and one final dot may be left out. A backslash and three
    /// decimal digits of value at most 255 are that octet; a backslash and another octet from 33 to 126 are that octet;
    /// any other octet from 33 to 126 is itself. Everything else, the empty text too, gives `BadText`, wherever it is
    /// in the text; then come the refusals of `from_labels`, and `Memory`. That no text is of two names' forms, and
    /// that each is read or refused for one cause, is `laws::text_is_read_or_refused`. A text without a backslash
    /// doesn't allocate if the wire form of its name has at most 31 octets.
    pub fn parse(alloc: Global, text: &str) -> Result<Name, ProtoError>
        ensures ok { IfOk result (IsNameText text.now) }
        ensures name { IfOk result (λ n. IsName n) }
        ensures refusal { ReportsTextFault result text.now }
    {
        if let Some(form) = read_unescaped(alloc, text.as_bytes())? {
            return Ok(Name { form });
        }
        Name::read(alloc, text)?.in_one_piece()
    }

    /// Reads the wire form of a name: each label behind its length, and the octet 0 of the root (RFC 1035 section 3.1).
    ///
    /// Octets that are the wire form of no labels give `BadText`: they end before the name does, or go on behind it. A
    /// label of more than 63 octets gives `LabelTooLong`, so that a pointer of a message is refused too; then a wire
    /// form of more than 255 octets gives `NameTooLong`; then comes `Memory`. Doesn't allocate for at most 31 octets,
    /// where no label has an octet 0 or 1.
    pub fn from_wire(alloc: Global, octets: &[u8]) -> Result<Name, ProtoError>
        ensures ok { IfOk result (λ n. octets.now ≡ wire_form n) }
        ensures refusal { ReportsWireFault result octets.now }
    {
        Ok(Name {
            form: read_wire(alloc, octets)?,
        })
    }

    /// Reads a name whose labels are in a list.
    fn read(alloc: Global, text: &str) -> Result<Name, ProtoError>
        ensures ok { IfOk result (IsNameText text.now) }
        ensures refusal { ReportsTextFault result text.now }
    {
        Name::from_labels(read_labels(alloc, text)?)
    }

    /// The same name, in one piece.
    fn in_one_piece(self) -> Result<Name, ProtoError>
        ensures { IsCopy result self }
    {
        let Name { form } = self;
        Ok(Name {
            form: form.in_one_piece()?,
        })
    }

    /// The labels, leftmost first.
    pub fn labels(&self) -> Labels<'_>
        ensures value { result ≡ self.now }
        ensures valid { IsName self.now }
        ensures range { IsNameInRange self.now }
    {
        self.form.labels()
    }

    /// The form in which the labels are kept.
    pub(crate) fn form(&self) -> &Form
        ensures { labels_of result.now ≡ self.now }
    {
        &self.form
    }

    /// How many labels there are; a `*` counts like any other label.
    pub fn num_labels(&self) -> usize
        ensures count { result ≡ length self.now }
        ensures valid { IsName self.now }
    {
        self.labels().len()
    }

    /// Whether this is the root.
    pub fn is_root(&self) -> bool
        ensures { IsTrue result ↔ (self.now ≡ []) }
    {
        self.form.is_root()
    }

    /// Whether the first label is `*` (RFC 4592 section 2.1.1).
    pub fn is_wildcard(&self) -> bool
        ensures { IsTrue result ↔ IsWildcard self.now }
    {
        match self.labels().next() {
            Some(label) => label == b"*".as_slice(),
            None => false,
        }
    }

    /// The name without its first label; the root of the root. Fails only for lack of memory.
    pub fn base_name(&self) -> Result<Name, ProtoError>
        ensures { IsCopy result (drop 1 self.now) }
    {
        let mut name = self.clone()?;
        name.shorten();
        Ok(name)
    }

    /// A copy without the first so many labels, or the root.
    pub(crate) fn without_first(&self, count: usize) -> Result<Name, ProtoError>
        ensures { IsCopy result (drop count self.now) }
    {
        Ok(Name {
            form: self.form.without_first(count)?,
        })
    }

    /// Takes the first label away, in place and without memory; the root stays.
    pub(crate) fn shorten(&mut self)
        ensures { self.new ≡ drop 1 self.old }
    {
        self.form.shorten();
    }

    /// The name with its first label replaced by `*`, in place and without memory; the root stays.
    pub fn into_wildcard(self) -> Name
        ensures { result ≡ wildcard_of self }
    {
        let Name { mut form } = self;
        form.make_wildcard();
        Name { form }
    }

    /// Whether the other name is this one or below it: whether this name's labels are the other's last labels, ignoring
    /// case.
    pub fn zone_of(&self, other: &Name) -> bool
        ensures { IsTrue result ↔ IsAtOrAbove (lower self.now) (lower other.now) }
    {
        self.form.zone_of(&other.form)
    }

    /// The name with one more label before its first.
    ///
    /// An empty label gives `EmptyLabel`, one of more than 63 octets `LabelTooLong`, a wire form of more than 255
    /// octets `NameTooLong`; then comes `Memory`.
    pub fn prepend_label(&self, label: &[u8]) -> Result<Name, ProtoError>
        ensures ok { IfOk result (λ n. n ≡ label.now ∷ self.now) }
        ensures refusal { ReportsFaultOrMemory result (label.now ∷ self.now) }
    {
        check_prepended(label, self.labels())?;
        Ok(Name {
            form: self.form.child(label)?,
        })
    }

    /// Lends the labels of the name and of each of its ancestors, from the whole name down to the root. Doesn't
    /// allocate.
    pub fn suffixes(&self) -> Suffixes<'_>
        ensures { suffixes_left result ≡ suffixes self.now }
    {
        Suffixes::of(self.labels())
    }

    /// The wire form in lower case: the canonical form of the name (RFC 4034 section 6.2). Fails only for lack of
    /// memory.
    pub fn wire_lower(&self) -> Result<Vec<u8>, ProtoError>
        ensures ok { IfOk result (λ bytes. bytes.items ≡ wire_form (lower self.now)) }
        ensures err { IsOkUnless result ProtoError.Memory }
    {
        Ok(write_wire(self.alloc(), self.labels())?)
    }

    /// The name with its letters in lower case, in place and without memory.
    pub(crate) fn into_lower_case(self) -> Name
        ensures value { result ≡ lower self }
        ensures valid { IsLowerName result }
    {
        let Name { mut form } = self;
        form.lower();
        Name { form }
    }

    /// The allocator that the name was made with.
    pub fn alloc(&self) -> Global {
        self.form.alloc()
    }

    /// A copy of the name, in the same case. Fails only for lack of memory.
    pub fn clone(&self) -> Result<Name, ProtoError>
        ensures { IsCopy result self.now }
    {
        Ok(Name {
            form: self.form.copy()?,
        })
    }
}
