//! What NSEC3 records prove (RFC 5155 section 8).
//!
//! Each call is told the apex of the zone, which is the name that signed the records, and is lent the records of a response;
//! those of other types than NSEC3 are passed over, and so are those that aren't of the zone: whose owner isn't one label before the
//! apex, with as many octets as the next digest has. The signatures are taken as checked, each under the owner itself: a record
//! that was made from a wildcard proves nothing. A record whose flags are others than 0 and 1 has no form here: who reads it from a
//! message leaves it out, as section 8.2 asks.
//!
//! Names are hashed by the parameters of the records. A record is ignored if `hash` doesn't know its algorithm: if it has no
//! digest of the name by the record's parameters (RFC 5155 section 8.1). The others must all have the same algorithm,
//! iterations and salt, else they prove nothing (section 8.2). A further name of which `hash` has no digest is one that no
//! record matches or covers.
//!
//! Digests and their texts take memory: each call is refused by `Memory`, and by nothing else. It hashes the name, and
//! others only where it needs them: the ancestors from the longest on up to the closest encloser, each once, and the
//! wildcard at that. What a digest costs grows with the iterations that the records name, up to 65535; a validator
//! should look at these first (RFC 9276 section 3.2).
ghost use Rattle.std.specs.Prelude.{◌≡◌, None, false, IfOk, IsOkUnless};
ghost use Rattle.std.specs.Option.{option_map_or};
ghost use Rattle.denial_validation.specs.Encloser.{ancestor_of};
ghost use Rattle.denial_validation.specs.Judgement.{nsec3_proof};
ghost use Rattle.denial_validation.specs.Nsec3Parameters.{concluded};
ghost use Rattle.denial_validation.specs.Nsec3Proofs.{proves_name_error, proves_no_data, proves_wildcard_no_data, proves_wildcard_answer, proves_unsigned_delegation};
ghost use Rattle.denial_validation.specs.Nsec3Responses.{lent_records};

use crate::nsec3_response::Nsec3Response;
use crate::proof::Proof;
use zone_proto::{LowerName, Nsec3Hash, ProtoError, Record, RecordType};

/// What the records prove about `name` and a type: the first case of [`Proof`] that holds, or nothing if none does. The only
/// error is `Memory`.
///
/// # Zone cuts
///
/// Nothing is concluded about a name below a zone cut or a DNAME whose record is among the records (RFC 6840 section 4.1). If
/// they have no record of an ancestor, a zone cut there isn't excluded.
///
/// # Opt-out
///
/// A delegation that opt-out may have left out takes precedence for DS, and for another type comes after no data from a
/// wildcard, since under opt-out nearly every denial shows that there may be one. The empty non-terminal is never returned:
/// such a name has a record, which denies each type.
///
/// # Wildcard answers
///
/// A wildcard answer is returned if nothing else is proved, with the encloser nearest to the apex among those from whose
/// wildcard the answer may have been made. For this all ancestors below the apex are hashed; and once more, with the apex, if a
/// record belongs to a zone cut or a DNAME.
pub fn proof<H: Nsec3Hash>(
    apex: &LowerName,
    records: &[&Record],
    name: &LowerName,
    record_type: RecordType,
    hash: &H,
) -> Result<Option<Proof>, ProtoError>
    ensures ok { IfOk result (λ proof. proof
        ≡ concluded (H.digest_of hash.now) apex.now name.now (lent_records records.now) None
        (λ digest rs. nsec3_proof apex.now digest rs name.now record_type.0)) }
    ensures err { IsOkUnless result ProtoError.Memory }
{
    match Nsec3Response::read(apex, records, name, hash)? {
        Some(response) => response.proof(record_type),
        None => Ok(None),
    }
}

/// Whether the records prove a name error: by a closest encloser proof that `name` doesn't exist, and that nor does the
/// wildcard at the encloser (RFC 5155 section 8.4). Its only error is `Memory`.
pub fn proves_name_error<H: Nsec3Hash>(
    apex: &LowerName,
    records: &[&Record],
    name: &LowerName,
    hash: &H,
) -> Result<bool, ProtoError>
    ensures ok { IfOk result (λ proved. proved
        ≡ concluded (H.digest_of hash.now) apex.now name.now (lent_records records.now) false
        (λ digest rs. proves_name_error apex.now digest rs name.now)) }
    ensures err { IsOkUnless result ProtoError.Memory }
{
    match Nsec3Response::read(apex, records, name, hash)? {
        Some(response) => response.proves_name_error(),
        None => Ok(false),
    }
}

/// Whether the records prove that `name` owns neither a set of the type nor an alias, or no set at all, by the name's
/// own record (RFC 5155 sections 8.5 and 8.6). Its only error is `Memory`.
///
/// Of a zone cut the parent's record denies DS alone (RFC 6840 section 4.1), and the child's all but DS (RFC 4035 section 5.2).
/// So no record denies DS of the apex. ANY is denied only of a name without sets. Only the name is hashed.
pub fn proves_no_data<H: Nsec3Hash>(
    apex: &LowerName,
    records: &[&Record],
    name: &LowerName,
    record_type: RecordType,
    hash: &H,
) -> Result<bool, ProtoError>
    ensures ok { IfOk result (λ proved. proved
        ≡ concluded (H.digest_of hash.now) apex.now name.now (lent_records records.now) false
        (λ digest rs. proves_no_data apex.now digest rs name.now record_type.0)) }
    ensures err { IsOkUnless result ProtoError.Memory }
{
    match Nsec3Response::read(apex, records, name, hash)? {
        Some(response) => Ok(response.proves_no_data(record_type)),
        None => Ok(false),
    }
}

/// Whether the records prove that `name` doesn't exist, and that the wildcard at its closest encloser owns neither a
/// set of the type nor an alias, or no set at all (RFC 5155 section 8.7). Its only error is `Memory`.
pub fn proves_wildcard_no_data<H: Nsec3Hash>(
    apex: &LowerName,
    records: &[&Record],
    name: &LowerName,
    record_type: RecordType,
    hash: &H,
) -> Result<bool, ProtoError>
    ensures ok { IfOk result (λ proved. proved
        ≡ concluded (H.digest_of hash.now) apex.now name.now (lent_records records.now) false
        (λ digest rs. proves_wildcard_no_data apex.now digest rs name.now record_type.0)) }
    ensures err { IsOkUnless result ProtoError.Memory }
{
    match Nsec3Response::read(apex, records, name, hash)? {
        Some(response) => response.proves_wildcard_no_data(record_type),
        None => Ok(false),
    }
}

/// Whether the records prove that an answer to `name` was rightly made from the wildcard at its ancestor with
/// `encloser_labels` labels, the apex or a name below it: that no name closer to `name` exists (RFC 5155 section 8.8).
/// Its only error is `Memory`.
///
/// Whether a zone cut is at or above that ancestor isn't told: a signed answer from below it wouldn't be of this zone.
/// `encloser_labels` is what the labels field of the answer's RRSIG record says (RFC 4034 section 3.1.3). Two names are
/// hashed.
pub fn proves_wildcard_answer<H: Nsec3Hash>(
    apex: &LowerName,
    records: &[&Record],
    name: &LowerName,
    encloser_labels: usize,
    hash: &H,
) -> Result<bool, ProtoError>
    ensures ok { IfOk result (λ proved. proved
        ≡ concluded (H.digest_of hash.now) apex.now name.now (lent_records records.now) false
        (λ digest rs. option_map_or (proves_wildcard_answer apex.now digest rs name.now)
        (ancestor_of name.now encloser_labels) false)) }
    ensures err { IsOkUnless result ProtoError.Memory }
{
    match Nsec3Response::read(apex, records, name, hash)? {
        Some(response) => response.proves_wildcard_answer(encloser_labels),
        None => Ok(false),
    }
}

/// Whether the records prove that `name`, below the apex, is a zone cut of which the parent has no DS, or that it may
/// be one which opt-out left out (RFC 5155 sections 8.6 and 8.9): what a referral to an unsigned child needs. Its only
/// error is `Memory`.
pub fn proves_unsigned_delegation<H: Nsec3Hash>(
    apex: &LowerName,
    records: &[&Record],
    name: &LowerName,
    hash: &H,
) -> Result<bool, ProtoError>
    ensures ok { IfOk result (λ proved. proved
        ≡ concluded (H.digest_of hash.now) apex.now name.now (lent_records records.now) false
        (λ digest rs. proves_unsigned_delegation apex.now digest rs name.now)) }
    ensures err { IsOkUnless result ProtoError.Memory }
{
    match Nsec3Response::read(apex, records, name, hash)? {
        Some(response) => response.proves_unsigned_delegation(),
        None => Ok(false),
    }
}
