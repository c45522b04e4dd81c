//! Standing signatures put into the blank places of a plan.
ghost use Rattle.std.specs.Prelude.{◌≡◌, [], IfOk, IfErr, OnOk, OnErr, option_copied, option_map};
ghost use Rattle.zone_proto.specs.Sets.{AreSignatures};
ghost use Rattle.zone_proto.specs.Signing.{signed_part};
ghost use Rattle.zone_map.specs.Renewals.{AreHanded};
ghost use Rattle.zone_proto.specs.Types.{DNSKEY as dnskey_type};
ghost use Rattle.zone_map.specs.Zones.{set_at, AreStored, IsZone};
ghost use Rattle.zone_planning.specs.Faults.{IsUnwritableUnless};
ghost use Rattle.zone_keeping.specs.Faults.{AllComparable, IsComparable};
ghost use Rattle.zone_keeping.specs.Keeping.{kept, kept_list, kept_lists, kept_record, standing_in};
ghost use Rattle.zone_keeping.specs.Usable.{usable_keys};

use crate::fitting::first_fit;
use crate::span::Span;
use crate::usable::{key_for, usable_keys_of};
use std::alloc::Global;
use zone_map::RecordMap;
use zone_planning::{Plan, PlanFault};
use zone_proto::{DNSKEY, LowerName, RData, RRSIG, Record, RecordSet, RecordType, RrKey, Rrsigs};

/// Puts signatures of an earlier version of a zone in the places of blank ones of a plan, where they fit; the others stay blank.
///
/// A signature fits if it is by the same key (tag, algorithm and signer), of the set of the same owner and type, with the same original
/// TTL and labels; if it is made of the same octets as a new one, but for its moments (RFC 4034 section 3.1.8.1), so that the records of
/// the set are the same up to their order, the case of names and repetitions; and if it holds from the first moment of `span` until the
/// last one. Whether it is valid isn't checked: [`crate::push_standing`] hands it over to be verified. A key that shares its algorithm
/// and tag with another one, of the plan or of the DNSKEY set that the old zone has at `origin`, keeps no signatures, since they can't be
/// told from the other's.
///
/// # Errors
///
/// Refused by `Unwritable` if a set that stands in both zones has data that no octets are, and by `Memory`; then the plan is as it was.
pub fn keep(
    alloc: Global,
    plan: &mut Plan,
    origin: &LowerName,
    old: &RecordMap,
    span: &Span,
) -> Result<(), PlanFault>
    ensures kept { OnOk result
        (plan.new.records
        ≡ kept span.now
        (usable_keys plan.old.keys.items (set_at old.now origin.now dnskey_type)) old.now
        plan.old.records) }
    ensures zone { OnOk result (IsZone plan.new.records) }
    ensures keys { plan.new.keys ≡ plan.old.keys }
    ensures same { OnErr result (plan.new.records ≡ plan.old.records) }
    ensures err { IfErr result
        (λ e. IsUnwritableUnless e (AllComparable old.now plan.old.records)) }
{
    let usable = usable_keys_of(alloc, plan.keys.as_slice(), origin, old)?;
    let lists = kept_lists(alloc, &plan.records, old, usable.as_slice(), span)?;
    let exchanged = Rrsigs::with_capacity(alloc, 0)?;
    // No set stands under this key, so that no serial is stepped.
    let none = RrKey::new(LowerName::root(alloc), RecordType(0));
    plan.records.renew(&none, lists, exchanged);
    Ok(())
}

/// The signatures of all sets in the order of their keys, each as a list of its own.
fn kept_lists(
    alloc: Global,
    records: &RecordMap,
    old: &RecordMap,
    usable: &[Option<DNSKEY>],
    span: &Span,
) -> Result<Vec<Option<Rrsigs>>, PlanFault>
    ensures handed { IfOk result
        (λ lists. AreHanded records.now
        (kept_lists span.now usable.now old.now records.now) lists.items []) }
    ensures stored { OnOk result (AreStored records.now) }
    ensures err { IfErr result (λ e. IsUnwritableUnless e (AllComparable old.now records.now)) }
{
    let mut lists = Vec::with_capacity(alloc, records.len())?;
    for (key, set) in records.iter() {
        let list = match kept_list(alloc, set, old.get(key), usable, span) {
            Ok(list) => list,
            Err(fault) => return Err(fault),
        };
        lists.push(Some(list))?;
    }
    Ok(lists)
}

/// The signatures of a set, with those of the old zone's set in the places of the blank ones where they fit.
fn kept_list(
    alloc: Global,
    set: &RecordSet,
    old: Option<&RecordSet>,
    usable: &[Option<DNSKEY>],
    span: &Span,
) -> Result<Rrsigs, PlanFault>
    ensures ok { IfOk result
        (λ list. list ≡ kept_list span.now usable.now (option_copied old.entry) set.now) }
    ensures err { IfErr result
        (λ e. IsUnwritableUnless e (IsComparable (option_copied old.entry) set.now)) }
{
    let mut list = Rrsigs::with_capacity(alloc, set.rrsigs().len())?;
    for record in set.rrsigs() {
        list.push(kept_record(alloc, set, old, record, usable, span)?)?;
    }
    Ok(list)
}

/// A record of a signature of a set, with the one of the old zone's set in its place if it is blank and one fits.
fn kept_record(
    alloc: Global,
    set: &RecordSet,
    old: Option<&RecordSet>,
    record: &Record,
    usable: &[Option<DNSKEY>],
    span: &Span,
) -> Result<Record, PlanFault>
    ensures ok { IfOk result
        (λ made. made
        ≡ kept_record span.now usable.now (option_copied old.entry) (signed_part set.now)
        record.now) }
    ensures err { IfErr result
        (λ e. IsUnwritableUnless e (IsComparable (option_copied old.entry) set.now)) }
{
    let RData::RRSIG(rrsig) = &record.rdata else {
        return Ok(record.clone()?);
    };
    match standing_in(alloc, key_for(usable, record), set, old, rrsig, span)? {
        Some(standing) => Ok(Record {
            name: record.name.clone()?,
            dns_class: record.dns_class,
            ttl: record.ttl,
            rdata: RData::RRSIG(standing.clone()?),
        }),
        None => Ok(record.clone()?),
    }
}

/// The signature of the old zone's set that stands in the place of one that a key is to make, if there are the set and the key.
fn standing_in<'a>(
    alloc: Global,
    key: Option<&DNSKEY>,
    set: &RecordSet,
    old: Option<&'a RecordSet>,
    blank: &RRSIG,
    span: &Span,
) -> Result<Option<&'a RRSIG>, PlanFault>
    ensures ok { IfOk result
        (λ found. option_map (λ r. r.now) found
        ≡ standing_in span.now (option_copied key.entry) (option_copied old.entry)
        (signed_part set.now) blank.now) }
    ensures err { IfErr result
        (λ e. IsUnwritableUnless e (IsComparable (option_copied old.entry) set.now)) }
{
    let Some(key) = key else {
        return Ok(None);
    };
    match old {
        Some(old) => first_fit(alloc, span, key, set, old, blank),
        None => Ok(None),
    }
}
