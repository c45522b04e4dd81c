//! What is found of a zone.
ghost use Rattle.std.specs.Prelude.{◌≡◌, ◌++◌, ◌∷◌, [], OnOk, IsOkUnless};
ghost use Rattle.zone_publication.specs.Delegations.{finding};
ghost use Rattle.zone_publication.specs.Warnings.{is_allowed, is_of_host, is_warning};

use std::fmt;
use thiserror::Error;
use zone_proto::{LowerName, Name, ProtoError, RecordType};

/// What is found of a set of a zone.
#[derive(Debug, Drop)]
pub struct Finding {
    /// The owner of the set.
    pub owner: Name,
    /// Its type.
    pub record_type: RecordType,
    /// What is found.
    pub what: What,
}

/// What is found. Signatures are told by the tags of their keys.
#[derive(Debug, Drop, Error)]
pub enum What {
    /// A DS at the apex (RFC 4035 section 2.4).
    #[error("stands at the apex")]
    AtApex,
    /// A DS without NS beside it (RFC 4035 section 2.4).
    #[error("has no NS beside it")]
    WithoutNs,
    /// A digest that isn't as long as those of its type are.
    #[error("has a digest of type {0} of another length")]
    DigestLength(u8),
    /// A CDS or CDNSKEY below the origin (RFC 7344 section 4.1).
    #[error("stands elsewhere than at the apex")]
    NotAtApex,
    /// A CDS or CDNSKEY of no key of the zone (RFC 7344 section 4.1).
    #[error("has no key among the DNSKEY of the apex")]
    WithoutKey,
    /// Data below a DNAME (RFC 6672 section 2.4).
    #[error("stands below a DNAME, so that it is never answered")]
    BelowDname,
    /// No signature of an algorithm that the zone has a key of (RFC 4035 section 2.2).
    #[error("has no signature of algorithm {0}")]
    NoSignature(u8),
    /// A signature by another name than the origin (RFC 4035 section 2.2).
    #[error("has a signature by key {0} of another signer than the zone")]
    WrongSigner(u16),
    /// A signature for an owner of another count of labels (RFC 4034 section 3.1.3).
    #[error("has a signature by key {0} that counts other labels than the owner has")]
    WrongLabels(u16),
    /// A signature for another TTL (RFC 4034 section 3.1.4).
    #[error("has a signature by key {0} for another TTL")]
    WrongTtl(u16),
    /// A signature that doesn't hold yet (RFC 4034 section 3.1.5).
    #[error("has a signature by key {0} that doesn't hold yet")]
    NotYetValid(u16),
    /// A signature that doesn't hold any more (RFC 4034 section 3.1.5).
    #[error("has a signature by key {0} that has expired")]
    Expired(u16),
    /// A signature that will soon not hold any more.
    #[error("has a signature by key {0} that soon expires")]
    EndsSoon(u16),
    /// A name server below its own zone cut, without an address (RFC 1034 section 4.2.1).
    #[error("names {0}, which has no glue")]
    NoGlue(Name),
    /// A host that is an alias (RFC 2181 section 10.3).
    #[error("names {0}, which is an alias")]
    TargetIsAlias(Name),
    /// A host of the zone without an address.
    #[error("names {0}, which has no address")]
    NoAddress(Name),
}

impl What {
    /// Whether it is a warning: the zone is as the standards have it, but may not do what is wanted.
    pub fn is_warning(&self) -> bool
        ensures { result ≡ is_warning self.now }
    {
        match self {
            What::EndsSoon(_) | What::NoGlue(_) | What::TargetIsAlias(_) | What::NoAddress(_) =>
                true,
            _ => false,
        }
    }

    /// Whether it is about a host that a record names.
    fn is_of_host(&self) -> bool
        ensures { result ≡ is_of_host self.now }
    {
        match self {
            What::NoGlue(_) | What::TargetIsAlias(_) | What::NoAddress(_) => true,
            _ => false,
        }
    }

    /// Whether it is no fault: a warning, which one of a host is not where hosts are strictly judged.
    pub fn is_allowed(&self, is_strict: bool) -> bool
        ensures { result ≡ is_allowed is_strict self.now }
    {
        self.is_warning() && !(is_strict && self.is_of_host())
    }
}

impl fmt::Display for Finding {
    fn fmt<W: fmt::Write>(&self, f: &mut fmt::Formatter<W>) -> fmt::Result {
        write!(f, "{} {} {}", self.owner, self.record_type, self.what)
    }
}

/// Adds what is found of a set. Its only error is `Memory`.
pub(crate) fn push_finding(
    owner: &LowerName,
    record_type: RecordType,
    what: What,
    out: &mut Vec<Finding>,
) -> Result<(), ProtoError>
    ensures ok { OnOk result
        (out.new.items ≡ out.old.items ++ finding owner.now record_type.0 what ∷ []) }
    ensures err { IsOkUnless result ProtoError.Memory }
{
    let owner = Name::from(owner.clone()?);
    out.push(Finding {
        owner,
        record_type,
        what,
    })?;
    Ok(())
}
