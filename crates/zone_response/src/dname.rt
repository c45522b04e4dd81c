//! The names that a DNAME set gives to those below its owner (RFC 6672).
ghost use Rattle.std.specs.Prelude.{◌≡◌, ◌≢◌, ◌++◌, take, None, IfOk, OnOk, IsOkUnless};
ghost use Rattle.zone_proto.specs.Vectors.{octets_of};
ghost use Rattle.zone_response.specs.Dname.{name_in, target_of, dname_target, in_place_of, unless_long, synthesized_alias};

use crate::lists::push;
use std::alloc::Global;
use zone_proto::{Labels, LowerName, Name, ProtoError, RData, RecordSet, RecordType};

/// The target of a DNAME set: none if it has several records, or one whose data are the wire form of no name. Its only
/// error is `Memory`.
pub(crate) fn dname_target(set: &RecordSet) -> Result<Option<Name>, ProtoError>
    ensures ok { IfOk result (λ target. target ≡ dname_target set.now) }
    ensures err { IsOkUnless result ProtoError.Memory }
{
    match set.as_slice() {
        [dname] => target_of(set.name().alloc(), &dname.rdata),
        _ => Ok(None),
    }
}

/// The name of which data without a case of their own are the wire form.
fn target_of(alloc: Global, rdata: &RData) -> Result<Option<Name>, ProtoError>
    ensures ok { IfOk result (λ target. target ≡ target_of rdata.now) }
    ensures err { IsOkUnless result ProtoError.Memory }
{
    match rdata {
        RData::Other(data) => name_in(alloc, data.octets()),
        _ => Ok(None),
    }
}

/// The name of which octets are the wire form.
fn name_in(alloc: Global, octets: &[u8]) -> Result<Option<Name>, ProtoError>
    ensures ok { IfOk result (λ name. name ≡ name_in octets.now) }
    ensures err { IsOkUnless result ProtoError.Memory }
{
    match Name::from_wire(alloc, octets) {
        Ok(name) => {
            // (what its labels promise of a name is needed here by the proof alone)
            let _labels = name.labels();
            Ok(Some(name))
        }
        Err(error) => no_name(error),
    }
}

/// No name, where octets were refused for this fault; or lack of memory, if it is that.
fn no_name(error: ProtoError) -> Result<Option<Name>, ProtoError>
    ensures ok { IfOk result (λ name. (name ≡ None) × (error ≢ ProtoError.Memory)) }
    ensures err { IsOkUnless result ProtoError.Memory }
{
    match error {
        ProtoError::Memory => Err(ProtoError::Memory),
        _ => Ok(None),
    }
}

/// A name below an owner with a target in the owner's place; none if that is too long for a name. Its only error is
/// `Memory`.
pub(crate) fn in_place_of(
    owner: &Name,
    target: &Name,
    name: &LowerName,
) -> Result<Option<Name>, ProtoError>
    ensures ok { IfOk result
        (λ new. new ≡ unless_long (in_place_of owner.now target.now name.now)) }
    ensures err { IsOkUnless result ProtoError.Memory }
{
    let count = name.num_labels().saturating_sub(owner.num_labels());
    let mut labels = Vec::new(name.alloc());
    add_labels(name.labels(), count, &mut labels)?;
    add_labels(target.labels(), target.num_labels(), &mut labels)?;
    match Name::from_labels(labels) {
        Ok(new) => Ok(Some(new)),
        Err(_) => Ok(None),
    }
}

/// Puts the first labels last, so many of them.
fn add_labels(labels: Labels<'_>, count: usize, list: &mut Vec<Vec<u8>>) -> Result<(), ProtoError>
    ensures ok { OnOk result
        (octets_of list.new.items ≡ octets_of list.old.items ++ take count labels.entry) }
    ensures err { IsOkUnless result ProtoError.Memory }
{
    let mut left = count;
    for label in labels {
        if left == 0 {
            return Ok(());
        }
        left -= 1;
        push(list, Vec::from_slice(*list.allocator(), label)?)?;
    }
    Ok(())
}

/// The CNAME set that a DNAME set makes of its new name for a name. Its only error is `Memory`.
pub(crate) fn synthesized_alias(
    set: &RecordSet,
    name: &LowerName,
    new: Name,
) -> Result<RecordSet, ProtoError>
    ensures made { IfOk result (λ made. made ≡ synthesized_alias set.now name.now new) }
    ensures err { IsOkUnless result ProtoError.Memory }
{
    let owner = Name::from(name.clone()?);
    let mut made = RecordSet::with_ttl(owner, RecordType::CNAME, set.ttl());
    made.add_rdata(RData::CNAME(new))?;
    Ok(made)
}
