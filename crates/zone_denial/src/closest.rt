//! The NSEC set that is closest to a name.
ghost use Rattle.std.specs.Prelude.{◌≡◌, false, length, None, IfOk, OnOk, OnErr, IsOkUnless, option_copied, option_map, option_and_then};
ghost use Rattle.std.specs.Option.{option_map_or};
ghost use Rattle.zone_proto.specs.Names.{lower};
ghost use Rattle.zone_proto.specs.Types.{NSEC};
ghost use Rattle.zone_map.specs.Counts.{counted_more};
ghost use Rattle.zone_map.specs.Zones.{set_at, IsZone};
ghost use Rattle.zone_denial.specs.NsecCircle.{next_of};
ghost use Rattle.zone_denial.specs.NsecDenial.{goes_past, says_past, closest_nsec, IsOwnersNsec, set_past};
ghost use Rattle.zone_denial.specs.OwnersRead.{owners_read, GrewByAtMost};

use zone_map::{Reads, RecordMap};
use zone_proto::{LowerName, Name, ProtoError, RData, RecordSet, RecordType, RrKey};

/// The NSEC set whose owner is the greatest of those that aren't after `name` and whose next name, as the first record
/// says it, comes after `name`, or isn't after the owner. Its only error is `Memory`.
///
/// Where the NSEC sets are a circle, it is the one that covers a name without such a set (RFC 4034 section 4).
pub fn closest_nsec<'m>(
    records: &'m RecordMap,
    name: &LowerName,
) -> Result<Option<&'m RecordSet>, ProtoError>
    ensures found { IfOk result (λ set. option_copied set ≡ closest_nsec records.now name.now) }
    ensures zone { IsZone records.now }
    ensures err { IsOkUnless result ProtoError.Memory }
{
    closest_nsec_knowing(records, name, None, &mut Reads::new())
}

/// The same, where the NSEC set of some owner is at hand, which isn't looked up then. No more owners are read, and
/// counted, than [`closest_nsec_counted`] reads: none if the key before the name's place has the set.
pub(crate) fn closest_nsec_knowing<'m>(
    records: &'m RecordMap,
    name: &LowerName,
    known: Option<&'m RecordSet>,
    reads: &mut Reads,
) -> Result<Option<&'m RecordSet>, ProtoError>
    requires { IsOwnersNsec records.now (option_copied known) }
    ensures found { IfOk result (λ set. option_copied set ≡ closest_nsec records.now name.now) }
    ensures counted { GrewByAtMost (length (owners_read records.now name.now)) reads.old reads.new }
    ensures zone { IsZone records.now }
    ensures err { IsOkUnless result ProtoError.Memory }
{
    // That they are those of a zone is told where they are lent.
    let _sets = records.as_map();
    // In a signed zone the key right before the place that the name's own would have is mostly the one.
    let place = RrKey::new(name.clone()?, RecordType::NSEC);
    if let Some((owner, set)) = records.last_of_type_upto(&place) {
        if says_past(set, owner, name)? {
            return Ok(Some(set));
        }
    }
    closest_by_index(records, name, known, reads)
}

/// The set that [`closest_nsec`] gives, found by the owners of NSEC sets alone, which are read from `name` back and
/// counted: those down to the closest one, or all of them if there is none. Its only error is `Memory`, which has
/// counted no more.
pub fn closest_nsec_counted<'m>(
    records: &'m RecordMap,
    name: &LowerName,
    reads: &mut Reads,
) -> Result<Option<&'m RecordSet>, ProtoError>
    ensures found { IfOk result (λ set. option_copied set ≡ closest_nsec records.now name.now) }
    ensures counted { OnOk result
        (reads.new ≡ counted_more (length (owners_read records.now name.now)) reads.old) }
    ensures refused { OnErr result
        (GrewByAtMost (length (owners_read records.now name.now)) reads.old reads.new) }
    ensures zone { IsZone records.now }
    ensures err { IsOkUnless result ProtoError.Memory }
{
    closest_by_index(records, name, None, reads)
}

/// The same, where the NSEC set of some owner is at hand, which isn't looked up then.
fn closest_by_index<'m>(
    records: &'m RecordMap,
    name: &LowerName,
    known: Option<&'m RecordSet>,
    reads: &mut Reads,
) -> Result<Option<&'m RecordSet>, ProtoError>
    requires { IsOwnersNsec records.now (option_copied known) }
    ensures found { IfOk result (λ set. option_copied set ≡ closest_nsec records.now name.now) }
    ensures counted { OnOk result
        (reads.new ≡ counted_more (length (owners_read records.now name.now)) reads.old) }
    ensures refused { OnErr result
        (GrewByAtMost (length (owners_read records.now name.now)) reads.old reads.new) }
    ensures zone { IsZone records.now }
    ensures err { IsOkUnless result ProtoError.Memory }
{
    let mut owners = records.denial_owners_upto(RecordType::NSEC, name);
    while let Some(owner) = owners.read_last(reads) {
        if let Some(set) = set_past(records, owner, name, known)? {
            return Ok(Some(set));
        }
    }
    Ok(None)
}

/// The NSEC set of an owner, if its next name goes past `name`.
fn set_past<'m>(
    records: &'m RecordMap,
    owner: &LowerName,
    name: &LowerName,
    known: Option<&'m RecordSet>,
) -> Result<Option<&'m RecordSet>, ProtoError>
    requires { IsOwnersNsec records.now (option_copied known) }
    ensures found { IfOk result
        (λ set. option_copied set ≡ set_past records.now name.now owner.now) }
    ensures err { IsOkUnless result ProtoError.Memory }
{
    let Some(set) = nsec_of(records, owner, known)? else {
        return Ok(None);
    };
    Ok(says_past(set, owner, name)?.then_some(set))
}

/// The NSEC set of an owner.
fn nsec_of<'m>(
    records: &'m RecordMap,
    owner: &LowerName,
    known: Option<&'m RecordSet>,
) -> Result<Option<&'m RecordSet>, ProtoError>
    requires { IsOwnersNsec records.now (option_copied known) }
    ensures found { IfOk result (λ set. option_copied set ≡ set_at records.now owner.now NSEC) }
    ensures err { IsOkUnless result ProtoError.Memory }
{
    if let Some(known) = known {
        if owner.is_exactly(known.name()) {
            return Ok(Some(known));
        }
    }
    let key = RrKey::new(owner.clone()?, RecordType::NSEC);
    Ok(records.get(&key))
}

/// Whether the next name of an owner's set goes past `name`.
fn says_past(set: &RecordSet, owner: &LowerName, name: &LowerName) -> Result<bool, ProtoError>
    ensures past { IfOk result
        (λ past. past ≡ option_map_or (goes_past owner.now name.now) (next_of set.now) false) }
    ensures err { IsOkUnless result ProtoError.Memory }
{
    match next_name(set) {
        Some(next) => Ok(goes_past(owner, name, &LowerName::new(next)?)),
        None => Ok(false),
    }
}

/// Whether the next name of an owner comes after `name`, or isn't after the owner.
fn goes_past(owner: &LowerName, name: &LowerName, next: &LowerName) -> bool
    ensures { result ≡ goes_past owner.now name.now next.now }
{
    *name < *next || *next <= *owner
}

/// The next name that a set's first record says.
fn next_name(set: &RecordSet) -> Option<&Name>
    ensures { option_map lower (option_copied result) ≡ next_of set.now }
{
    match &set.records_without_rrsigs().next()?.rdata {
        RData::NSEC(nsec) => Some(&nsec.next_domain_name),
        _ => None,
    }
}
