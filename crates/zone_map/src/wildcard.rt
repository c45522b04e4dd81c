//! The wildcard that answers for a name that doesn't exist (RFC 4592).
ghost use Rattle.std.specs.Prelude.{◌≡◌, IfOk, IsOkUnless, None, Some};
ghost use Rattle.zone_proto.specs.Names.{wildcard_of};
ghost use Rattle.zone_map.specs.Direct.{direct};
ghost use Rattle.zone_map.specs.Wildcards.{asked_wildcard, asked_wildcard_exists, renamed, renamed_signature, wildcard};

use crate::direct::at_wildcard;
use crate::record_map::RecordMap;
use zone_proto::{LowerName, Name, ProtoError, Record, RecordSet, RecordType, RrKey};

/// What a wildcard makes of a query for a name without a direct set.
#[derive(Drop)]
pub struct Synthesis {
    /// The set that it gives the name.
    pub set: Option<RecordSet>,
    /// Whether the wildcard at the closest encloser of the name exists.
    pub wildcard_exists: bool,
}

/// What a wildcard makes of a query for a name without a direct set (RFC 4592 section 3.3.1): the direct set of the
/// wildcard at the closest encloser, the longest of the name's proper ancestors that exists, under the name, with
/// signatures only if `signed`. The wildcard has `*` in place of the first label of `next_closer`, as the search for a
/// direct set has seen it. Its only error is `Memory`.
pub fn wildcard(
    records: &RecordMap,
    name: &LowerName,
    record_type: RecordType,
    signed: bool,
    next_closer: LowerName,
) -> Result<Synthesis, ProtoError>
    requires none { direct records.now name.now record_type.0 ≡ None }
    requires wildcard_name { asked_wildcard records.now name.now ≡ Some (wildcard_of next_closer) }
    ensures set { IfOk result
        (λ synthesis. synthesis.set ≡ wildcard records.now signed name.now record_type.0) }
    ensures exists { IfOk result
        (λ synthesis. synthesis.wildcard_exists ≡ asked_wildcard_exists records.now name.now) }
    ensures err { IsOkUnless result ProtoError.Memory }
{
    let wildcard_name = RrKey::new(next_closer.into_wildcard(), RecordType(0));
    let here = at_wildcard(records, &wildcard_name, record_type);
    let set = match here.set {
        Some(set) => Some(renamed(set, &Name::from(wildcard_name.name), name, signed)?),
        None => None,
    };
    Ok(Synthesis {
        set,
        wildcard_exists: here.exists,
    })
}

/// The set of a wildcard at the queried name, which is of class IN and serial 0, each record with the set's TTL. Its
/// signatures come along only if `signed`: one that the wildcard owns is the name's then. Its only error is `Memory`.
pub fn renamed(
    set: &RecordSet,
    wildcard_name: &Name,
    name: &LowerName,
    signed: bool,
) -> Result<RecordSet, ProtoError>
    ensures made { IfOk result (λ made. made ≡ renamed signed wildcard_name.now name.now set.now) }
    ensures err { IsOkUnless result ProtoError.Memory }
{
    let owner = Name::from(name.clone()?);
    let mut made = set.clone_under(owner, set.ttl())?;
    if signed {
        for rrsig in set.rrsigs() {
            made.insert_rrsig(renamed_signature(rrsig, wildcard_name, name)?)?;
        }
    }
    Ok(made)
}

/// A signature of a wildcard's set under the queried name: one that the wildcard owns is the name's.
fn renamed_signature(
    rrsig: &Record,
    wildcard_name: &Name,
    name: &LowerName,
) -> Result<Record, ProtoError>
    ensures made { IfOk result
        (λ made. made ≡ renamed_signature wildcard_name.now name.now rrsig.now) }
    ensures err { IsOkUnless result ProtoError.Memory }
{
    let owner = if rrsig.name == *wildcard_name {
        Name::from(name.clone()?)
    } else {
        rrsig.name.clone()?
    };
    Ok(Record {
        name: owner,
        dns_class: rrsig.dns_class,
        ttl: rrsig.ttl,
        rdata: rrsig.rdata.clone()?,
    })
}
