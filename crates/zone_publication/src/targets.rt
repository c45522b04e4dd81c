//! The hosts that NS, MX and SRV records name.
ghost use Rattle.std.specs.Prelude.{◌≡◌, ◌++◌, IfOk, OnOk, IsOkUnless, option_copied};
ghost use Rattle.zone_proto.specs.Names.{lower};
ghost use Rattle.zone_publication.specs.Targets.{has_addresses, has_wildcard, host_finding, target_finding, target_of, targets};

use crate::finding::{Finding, What, push_finding};
use crate::names::{Zone, is_at_or_above};
use zone_proto::{LowerName, Name, ProtoError, RData, Record, RecordType};

/// Adds what is found of the hosts that the records of a set name. Its only error is `Memory`.
pub(crate) fn push_targets(
    zone: &Zone<'_>,
    owner: &LowerName,
    record_type: RecordType,
    records: &[Record],
    out: &mut Vec<Finding>,
) -> Result<(), ProtoError>
    ensures ok { OnOk result (out.new.items ≡ out.old.items
        ++ targets zone.now.origin.now zone.now.records.now owner.now record_type.0 records.now) }
    ensures err { IsOkUnless result ProtoError.Memory }
{
    for given in records {
        push_target(zone, owner, record_type, &given.rdata, out)?;
    }
    Ok(())
}

/// Adds what is found of the host that a record names. Its only error is `Memory`.
fn push_target(
    zone: &Zone<'_>,
    owner: &LowerName,
    record_type: RecordType,
    rdata: &RData,
    out: &mut Vec<Finding>,
) -> Result<(), ProtoError>
    ensures ok { OnOk result (out.new.items ≡ out.old.items
        ++ target_finding zone.now.origin.now zone.now.records.now owner.now record_type.0
        (target_of rdata.now)) }
    ensures err { IsOkUnless result ProtoError.Memory }
{
    match target_of(rdata) {
        Some(target) => push_host(zone, owner, record_type, target, out),
        None => Ok(()),
    }
}

/// The host that data name.
fn target_of(rdata: &RData) -> Option<&Name>
    ensures { option_copied result ≡ target_of rdata.now }
{
    match rdata {
        RData::NS(host) => Some(host),
        RData::MX(mx) => Some(&mx.exchange),
        RData::SRV(srv) => Some(&srv.target),
        _ => None,
    }
}

/// Adds what is found of a host. Its only error is `Memory`.
fn push_host(
    zone: &Zone<'_>,
    owner: &LowerName,
    record_type: RecordType,
    target: &Name,
    out: &mut Vec<Finding>,
) -> Result<(), ProtoError>
    ensures ok { OnOk result (out.new.items ≡ out.old.items
        ++ host_finding zone.now.origin.now zone.now.records.now owner.now record_type.0 target.now
        (lower target.now)) }
    ensures err { IsOkUnless result ProtoError.Memory }
{
    let host = LowerName::new(target)?;
    if host.is_root() || !zone.has(&host) {
        return Ok(());
    }
    if zone.owns(&host, RecordType::CNAME)? {
        let what = What::TargetIsAlias(target.clone()?);
        return push_finding(owner, record_type, what, out);
    }
    if has_addresses(zone, &host)? {
        return Ok(());
    }
    if zone.is_cut(&host)? || zone.is_below_cut(&host)? {
        if record_type == RecordType::NS && is_at_or_above(owner, &host) {
            let what = What::NoGlue(target.clone()?);
            return push_finding(owner, record_type, what, out);
        }
        return Ok(());
    }
    if has_wildcard(zone, &host)? {
        return Ok(());
    }
    let what = What::NoAddress(target.clone()?);
    push_finding(owner, record_type, what, out)
}

/// Whether a name has addresses. Its only error is `Memory`.
fn has_addresses(zone: &Zone<'_>, name: &LowerName) -> Result<bool, ProtoError>
    ensures ok { IfOk result (λ has. has ≡ has_addresses zone.now.records.now name.now) }
    ensures err { IsOkUnless result ProtoError.Memory }
{
    if zone.owns(name, RecordType::A)? || zone.owns(name, RecordType::AAAA)? {
        return Ok(true);
    }
    zone.owns(name, RecordType::ANAME)
}

/// Whether a wildcard above a name has addresses or is an alias. Its only error is `Memory`.
#[tactic(auto, using(crate::proofs::Ancestors::next_wildcard, crate::proofs::Ancestors::at_wildcard))]
fn has_wildcard(zone: &Zone<'_>, name: &LowerName) -> Result<bool, ProtoError>
    ensures ok { IfOk result (λ has. has ≡ has_wildcard zone.now.records.now name.now) }
    ensures err { IsOkUnless result ProtoError.Memory }
{
    let mut below = name.clone()?;
    while !below.is_root() {
        let wildcard = below.clone()?.into_wildcard();
        if has_addresses(zone, &wildcard)? || zone.owns(&wildcard, RecordType::CNAME)? {
            return Ok(true);
        }
        below.shorten();
    }
    Ok(false)
}
