//! Names in lower case, as the owners of record sets are kept.
ghost use Rattle.std.specs.Prelude.{◌≡◌, ◌↔◌, [], ◌∷◌, ◌-◌, length, drop, IsTrue, IfOk, IsOkUnless};
ghost use Rattle.zone_proto.specs.Names.{lower, lower_label, suffixes, wire_form, wildcard_of, IsAtOrAbove, IsLowerName, IsWildcard, SharesLabels};
ghost use Rattle.zone_proto.specs.Keys.{key, IsKeyInRange};
ghost use Rattle.zone_proto.specs.Ranges.{IsNameInRange};
ghost use Rattle.zone_proto.specs.Forms.{labels_of};
ghost use Rattle.zone_proto.specs.Vectors.{octets_of};
ghost use Rattle.zone_proto.specs.Suffixes.{suffixes_left};
ghost use Rattle.zone_proto.specs.TextForm.{IsNameText};
ghost use Rattle.zone_proto.specs.Results.{IsCopy, ReportsFault, ReportsFaultOrMemory, ReportsTextFault};

use crate::error::ProtoError;
use crate::form::Form;
use crate::labels_iter::Labels;
use crate::name::Name;
use crate::record_type::RecordType;
use crate::rr_key::RrKey;
use crate::suffixes::Suffixes;
use std::alloc::Global;
use std::marker::Model;

/// A domain name whose ASCII letters are in lower case, so that names that are equal are identical.
#[derive(Debug, Drop)]
pub struct LowerName {
    name: Name,
}

impl Model for LowerName {
    ghost use Rattle.std.specs.Prelude.{List, ℕ};
    ghost use Rattle.zone_proto.specs.Names.{IsLowerName};

    ghost Value = { List (List ℕ) };

    ghost view = { λ n. n.name };

    ghost invariant = { λ n. IsLowerName n.name };
}

impl LowerName {
    /// A copy of the name in lower case. Fails only for lack of memory.
    pub fn new(name: &Name) -> Result<LowerName, ProtoError>
        ensures { IsCopy result (lower name.now) }
    {
        Ok(LowerName::from(name.clone()?))
    }

    /// The root, which has no label. Doesn't allocate.
    pub fn root(alloc: Global) -> LowerName
        ensures { result ≡ [] }
    {
        LowerName {
            name: Name::root(alloc),
        }
    }

    /// The name of these labels in lower case, leftmost first. Doesn't allocate. Refused as `Name::from_labels` is.
    pub fn from_labels(labels: Vec<Vec<u8>>) -> Result<LowerName, ProtoError>
        ensures ok { IfOk result (λ n. n ≡ lower (octets_of labels.items)) }
        ensures refusal { ReportsFault result (octets_of labels.items) }
    {
        Ok(LowerName::from(Name::from_labels(labels)?))
    }

    /// Reads the text form of a name, and puts the name into lower case. Reads and refuses as `Name::parse` does.
    pub fn parse(alloc: Global, text: &str) -> Result<LowerName, ProtoError>
        ensures ok { IfOk result
            (λ n. (name : Name) × IsNameText text.now name × (n ≡ lower name)) }
        ensures refusal { ReportsTextFault result text.now }
    {
        Ok(LowerName::from(Name::parse(alloc, text)?))
    }

    /// The labels, leftmost first.
    pub fn labels(&self) -> Labels<'_>
        ensures value { result ≡ self.now }
        ensures valid { IsLowerName self.now }
        ensures range { IsNameInRange self.now }
    {
        self.name.labels()
    }

    /// The form in which the labels are kept.
    pub(crate) fn form(&self) -> &Form
        ensures value { labels_of result.now ≡ self.now }
        ensures lower { lower self.now ≡ self.now }
    {
        self.name.form()
    }

    /// How many labels there are; a `*` counts like any other label.
    pub fn num_labels(&self) -> usize
        ensures count { result ≡ length self.now }
        ensures valid { IsLowerName self.now }
    {
        self.name.num_labels()
    }

    /// Whether this is the root.
    pub fn is_root(&self) -> bool
        ensures { IsTrue result ↔ (self.now ≡ []) }
    {
        self.name.is_root()
    }

    /// Whether the first label is `*` (RFC 4592 section 2.1.1).
    pub fn is_wildcard(&self) -> bool
        ensures { IsTrue result ↔ IsWildcard self.now }
    {
        self.name.is_wildcard()
    }

    /// The name without its first label; the root of the root. Fails only for lack of memory.
    pub fn base_name(&self) -> Result<LowerName, ProtoError>
        ensures { IsCopy result (drop 1 self.now) }
    {
        Ok(LowerName {
            name: self.name.base_name()?,
        })
    }

    /// Takes the first label away, in place and without memory; the root stays.
    ///
    /// A walk from a name up to the root copies the name once, and then shortens the copy.
    pub fn shorten(&mut self)
        ensures { self.new ≡ drop 1 self.old }
    {
        self.name.shorten();
    }

    /// The name with its first label replaced by `*`, in place and without memory; the root stays.
    pub fn into_wildcard(self) -> LowerName
        ensures { result ≡ wildcard_of self }
    {
        let LowerName { name } = self;
        LowerName {
            name: name.into_wildcard(),
        }
    }

    /// The key of this name and a type. Doesn't allocate.
    pub(crate) fn into_key(self, record_type: RecordType) -> RrKey
        ensures value { result ≡ key self record_type.0 }
        ensures named { IsLowerName result.name }
        ensures range { IsKeyInRange result }
    {
        let LowerName { name } = self;
        RrKey {
            name: LowerName { name },
            record_type,
        }
    }

    /// Whether the other name is this one or below it: whether this name's labels are the other's last labels.
    pub fn zone_of(&self, other: &LowerName) -> bool
        ensures { IsTrue result ↔ IsAtOrAbove self.now other.now }
    {
        self.name.zone_of(&other.name)
    }

    /// How many last labels the name shares with another one: as many as their longest common ancestor has. Doesn't
    /// allocate.
    pub fn shared_labels(&self, other: &LowerName) -> usize
        ensures { SharesLabels self.now other.now result }
    {
        self.form().shared_labels(other.form())
    }

    /// A copy of the name's last labels, so many or all that there are: an ancestor, or the name itself. Fails only for
    /// lack of memory.
    pub fn ancestor(&self, count: usize) -> Result<LowerName, ProtoError>
        ensures { IsCopy result (drop (length self.now - count) self.now) }
    {
        let taken = self.num_labels().saturating_sub(count);
        Ok(LowerName {
            name: self.name.without_first(taken)?,
        })
    }

    /// Whether a name is this one with its letters in lower case too, which `==` of names doesn't tell. Doesn't
    /// allocate.
    pub fn is_exactly(&self, name: &Name) -> bool
        ensures same { IsTrue result ↔ (name.now ≡ self.now) }
        ensures lower { lower self.now ≡ self.now }
    {
        name.form().is_same(self.form())
    }

    /// The name with one more label, put into lower case, before its first. Refused as `Name::prepend_label` is.
    pub fn prepend_label(&self, label: &[u8]) -> Result<LowerName, ProtoError>
        ensures ok { IfOk result (λ n. n ≡ lower_label label.now ∷ self.now) }
        ensures refusal { ReportsFaultOrMemory result (label.now ∷ self.now) }
        ensures valid { IsLowerName self.now }
    {
        Ok(LowerName::from(self.name.prepend_label(label)?))
    }

    /// Lends the labels of the name and of each of its ancestors, from the whole name down to the root. Doesn't
    /// allocate.
    pub fn suffixes(&self) -> Suffixes<'_>
        ensures { suffixes_left result ≡ suffixes self.now }
    {
        self.name.suffixes()
    }

    /// The wire form: the canonical form of the name (RFC 4034 section 6.2). Fails only for lack of memory.
    pub fn wire_lower(&self) -> Result<Vec<u8>, ProtoError>
        ensures ok { IfOk result (λ bytes. bytes.items ≡ wire_form self.now) }
        ensures err { IsOkUnless result ProtoError.Memory }
    {
        self.name.wire_lower()
    }

    /// The allocator that the name was made with.
    pub fn alloc(&self) -> Global {
        self.name.alloc()
    }

    /// A copy of the name. Fails only for lack of memory.
    pub fn clone(&self) -> Result<LowerName, ProtoError>
        ensures copy { IsCopy result self.now }
        ensures valid { IsLowerName self.now }
    {
        Ok(LowerName {
            name: self.name.clone()?,
        })
    }
}

/// Puts the name into lower case, in place and without memory.
impl From<Name> for LowerName {
    ghost from_gives = { λ name lowered. lowered ≡ lower name };

    fn from(name: Name) -> LowerName {
        LowerName {
            name: name.into_lower_case(),
        }
    }
}

/// The same name, without memory.
impl From<LowerName> for Name {
    ghost from_gives = { λ lowered name. name ≡ lowered };

    fn from(lowered: LowerName) -> Name {
        let LowerName { name } = lowered;
        name
    }
}
