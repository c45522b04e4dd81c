//! ANAME: an owner that takes the addresses of another name as its own.
ghost use Rattle.std.specs.Prelude.{◌≡◌, IfOk, IsOkUnless};
ghost use Rattle.zone_lookup.specs.Flattening.{flattened, stands_for_addresses, unsigned_flattened};
ghost use Rattle.zone_signing.specs.Signatures.{answer_signatures};

use lookup_types::LookupOptions;
use zone_map::direct::is_address;
use zone_proto::{ProtoError, RecordSet, RecordType, Signer};
use zone_signing::signatures::{LAST_MOMENT, sign_set};

/// An ANAME set flattened for a type by the last additional set: the addresses of that set, under the owner of the
/// ANAME set, with the lesser one of both TTLs; none if the last set is of another type. Where `lookup_options` ask for
/// DNSSEC each signer in order signs it (RFC 4034 section 3), unless the moment `now`, in seconds since 1970, is past
/// the year 9999. Its only error is `Memory`, of a signer too.
pub fn flattened<S: Signer>(
    aname: &RecordSet,
    record_type: RecordType,
    last: &RecordSet,
    signers: &[S],
    lookup_options: LookupOptions,
    now: u64,
) -> Result<RecordSet, ProtoError>
    ensures made { IfOk result
        (λ made. made
        ≡ flattened (answer_signatures S.signature_of now lookup_options.dnssec_ok signers.now)
        aname.now record_type.0 last.now) }
    ensures err { IsOkUnless result ProtoError.Memory }
{
    let mut set = unsigned_flattened(aname, record_type, last)?;
    if lookup_options.dnssec_ok && now <= LAST_MOMENT {
        sign_set(&mut set, signers, now)?;
    }
    Ok(set)
}

/// The same without signatures.
fn unsigned_flattened(
    aname: &RecordSet,
    record_type: RecordType,
    last: &RecordSet,
) -> Result<RecordSet, ProtoError>
    ensures made { IfOk result
        (λ made. made ≡ unsigned_flattened aname.now record_type.0 last.now) }
    ensures err { IsOkUnless result ProtoError.Memory }
{
    let owner = aname.name().clone()?;
    let ttl = aname.ttl().min(last.ttl());
    if last.record_type() == record_type {
        last.clone_under(owner, ttl)
    } else {
        Ok(RecordSet::with_ttl(owner, record_type, ttl))
    }
}

/// Whether a set is an ANAME set where addresses are asked for.
pub fn stands_for_addresses(record_type: RecordType, set: &RecordSet) -> bool
    ensures { result ≡ stands_for_addresses record_type.0 set.now }
{
    set.record_type() == RecordType::ANAME && is_address(record_type)
}
