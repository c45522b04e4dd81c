// The parameters by which names are hashed, as NSEC3 records tell them.
ghost use Rattle.std.specs.Prelude.{◌≡◌, false, length, Some, find, option_copied, option_map, option_and_then, IfOk, IfSome, IsOkUnless};
ghost use Rattle.std.specs.Option.{option_map_or};
ghost use Rattle.zone_proto.specs.Base32.{base32_count};
ghost use Rattle.zone_proto.specs.Names.{lower};
ghost use Rattle.denial_validation.specs.Nsec3Parameters.{is_of_zone, zone_data, same_parameters, has_parameters, digest_by, is_known, known_or_none, is_other, is_other_known, nsec3_datas, common_parameters};
ghost use Rattle.denial_validation.specs.Nsec3Proofs.{owner_of};
ghost use Rattle.denial_validation.specs.Nsec3Responses.{lent_records};

use crate::asked_name::AskedName;
use crate::hashed_owner::HashedOwner;
use crate::nsec3_record::nsec3_data;
use zone_proto::{LowerName, NSEC3, Name, Nsec3Hash, ProtoError, Record};

/// The data of a record, if it is an NSEC3 record of the zone with this apex.
fn zone_data<'r>(apex: &LowerName, lent: &'r Record) -> Option<&'r NSEC3>
    ensures { option_copied result ≡ zone_data apex.now lent.now }
{
    let found = nsec3_data(lent)?;
    if is_of_zone(apex, &lent.name, found.next_hashed_owner_name.as_slice()) {
        Some(found)
    } else {
        None
    }
}

/// Whether an owner stands one label before the apex, and this label is as long as the text of the next digest.
fn is_of_zone(apex: &LowerName, owner: &Name, next: &[u8]) -> bool
    ensures { result ≡ is_of_zone apex.now (lower owner.now) next.now }
{
    let mut labels = owner.labels();
    match labels.next() {
        Some(first) => {
            first.len() == text_length(next)
                && AskedName::of_labels(labels).equals(&AskedName::of(apex))
        }
        None => false,
    }
}

/// How many characters the text of octets in base32hex has, the last one for what is left over.
fn text_length(octets: &[u8]) -> usize
    ensures { result ≡ base32_count (length octets.now) }
{
    octets.len() / 5 * 8 + (octets.len() % 5 * 8).div_ceil(5)
}

/// Whether the data of two records have the same parameters.
fn same_parameters(a: &NSEC3, b: &NSEC3) -> bool
    ensures { result ≡ same_parameters a.now b.now }
{
    a.algorithm == b.algorithm && a.iterations == b.iterations && a.salt == b.salt
}

/// Whether a record is an NSEC3 record of the zone and has these parameters.
pub(crate) fn has_parameters(apex: &LowerName, parameters: &NSEC3, lent: &Record) -> bool
    ensures { result ≡ has_parameters apex.now parameters.now lent.now }
{
    match zone_data(apex, lent) {
        Some(found) => same_parameters(parameters, found),
        None => false,
    }
}

/// The hashed owner of a name by these parameters, if the hash has a digest of it. Fails only for lack of memory.
pub(crate) fn hashed_owner<'z, H: Nsec3Hash>(
    apex: &'z LowerName,
    parameters: &NSEC3,
    name: &LowerName,
    hash: &H,
) -> Result<Option<HashedOwner<'z>>, ProtoError>
    ensures ok { IfOk result (λ owner. owner
        ≡ owner_of apex.now (digest_by (H.digest_of hash.now) parameters.now) name.now) }
    ensures err { IsOkUnless result ProtoError.Memory }
{
    match digest(parameters, name, hash)? {
        Some(digest) => Ok(Some(HashedOwner::of(apex, &digest)?)),
        None => Ok(None),
    }
}

/// The digest of a name by these parameters, if the hash has one. Fails only for lack of memory.
fn digest<H: Nsec3Hash>(
    parameters: &NSEC3,
    name: &LowerName,
    hash: &H,
) -> Result<Option<Vec<u8>>, ProtoError>
    ensures ok { IfOk result (λ digest. option_map (λ d. d.items) digest
        ≡ digest_by (H.digest_of hash.now) parameters.now name.now) }
    ensures err { IsOkUnless result ProtoError.Memory }
{
    let digest = hash.hash(
        parameters.algorithm,
        parameters.salt.as_slice(),
        name,
        parameters.iterations,
    );
    match digest {
        Ok(digest) => Ok(Some(digest)),
        Err(ProtoError::Hash) => Ok(None),
        Err(refusal) => Err(refusal),
    }
}

/// Parameters by which the hash has a digest of a name, and the hashed owner that the name has by them.
#[derive(Drop)]
pub(crate) struct KnownParameters<'z, 'r> {
    pub parameters: &'r NSEC3,
    pub owner: HashedOwner<'z>,
}

/// The parameters of all records whose algorithm the hash knows, where these have the same, with the hashed owner of
/// the name by them (RFC 5155 sections 8.1 and 8.2). Fails only for lack of memory.
pub(crate) fn common_parameters<'z, 'r, H: Nsec3Hash>(
    apex: &'z LowerName,
    records: &[&'r Record],
    name: &LowerName,
    hash: &H,
) -> Result<Option<KnownParameters<'z, 'r>>, ProtoError>
    ensures common { IfOk result (λ known. option_map (λ k. k.parameters.now) known
        ≡ common_parameters (H.digest_of hash.now) apex.now name.now (lent_records records.now)) }
    ensures owner { IfOk result
        (λ known. IfSome known
        (λ k. Some k.owner
        ≡ owner_of apex.now (digest_by (H.digest_of hash.now) k.parameters.now) name.now)) }
    ensures err { IsOkUnless result ProtoError.Memory }
{
    match first_known(apex, records, name, hash)? {
        Some(known) => {
            let differ = is_other_known(apex, records, name, hash, known.parameters)?;
            if differ { Ok(None) } else { Ok(Some(known)) }
        }
        None => Ok(None),
    }
}

/// Those of the first record whose algorithm the hash knows. Fails only for lack of memory.
fn first_known<'z, 'r, H: Nsec3Hash>(
    apex: &'z LowerName,
    records: &[&'r Record],
    name: &LowerName,
    hash: &H,
) -> Result<Option<KnownParameters<'z, 'r>>, ProtoError>
    ensures first { IfOk result (λ known. option_map (λ k. k.parameters.now) known
        ≡ find (is_known (H.digest_of hash.now) apex.now name.now)
        (nsec3_datas apex.now (lent_records records.now))) }
    ensures owner { IfOk result
        (λ known. IfSome known
        (λ k. Some k.owner
        ≡ owner_of apex.now (digest_by (H.digest_of hash.now) k.parameters.now) name.now)) }
    ensures err { IsOkUnless result ProtoError.Memory }
{
    for lent in records {
        let known = known_parameters(apex, lent, name, hash)?;
        if known.is_some() {
            return Ok(known);
        }
    }
    Ok(None)
}

/// Those of one record, if it is an NSEC3 record of the zone and the hash knows its algorithm. Fails only for lack of
/// memory.
fn known_parameters<'z, 'r, H: Nsec3Hash>(
    apex: &'z LowerName,
    lent: &'r Record,
    name: &LowerName,
    hash: &H,
) -> Result<Option<KnownParameters<'z, 'r>>, ProtoError>
    ensures known { IfOk result (λ known. option_map (λ k. k.parameters.now) known
        ≡ option_and_then (known_or_none (H.digest_of hash.now) apex.now name.now)
        (zone_data apex.now lent.now)) }
    ensures owner { IfOk result
        (λ known. IfSome known
        (λ k. Some k.owner
        ≡ owner_of apex.now (digest_by (H.digest_of hash.now) k.parameters.now) name.now)) }
    ensures err { IsOkUnless result ProtoError.Memory }
{
    match zone_data(apex, lent) {
        Some(parameters) => match hashed_owner(apex, parameters, name, hash)? {
            Some(owner) => Ok(Some(KnownParameters { parameters, owner })),
            None => Ok(None),
        },
        None => Ok(None),
    }
}

/// Whether a record whose algorithm the hash knows has other parameters. Fails only for lack of memory.
fn is_other_known<H: Nsec3Hash>(
    apex: &LowerName,
    records: &[&Record],
    name: &LowerName,
    hash: &H,
    parameters: &NSEC3,
) -> Result<bool, ProtoError>
    ensures ok { IfOk result (λ other. other
        ≡ is_other_known (H.digest_of hash.now) apex.now name.now (lent_records records.now)
        parameters.now) }
    ensures err { IsOkUnless result ProtoError.Memory }
{
    for lent in records {
        if has_other_known(apex, lent, name, hash, parameters)? {
            return Ok(true);
        }
    }
    Ok(false)
}

/// Whether this record is one. Fails only for lack of memory.
fn has_other_known<H: Nsec3Hash>(
    apex: &LowerName,
    lent: &Record,
    name: &LowerName,
    hash: &H,
    parameters: &NSEC3,
) -> Result<bool, ProtoError>
    ensures ok { IfOk result (λ other. other
        ≡ option_map_or (is_other (H.digest_of hash.now) apex.now name.now parameters.now)
        (zone_data apex.now lent.now) false) }
    ensures err { IsOkUnless result ProtoError.Memory }
{
    match zone_data(apex, lent) {
        Some(found) => {
            if same_parameters(parameters, found) {
                Ok(false)
            } else {
                Ok(digest(found, name, hash)?.is_some())
            }
        }
        None => Ok(false),
    }
}
