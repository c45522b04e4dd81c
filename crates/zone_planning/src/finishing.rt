//! Signatures put into a plan.
ghost use Rattle.std.specs.Prelude.{◌≡◌, ◌+◌, ◌^◌, ◌<◌, ◌≤◌, ◌⊎◌, ℕ, List, [], None, Some, IfOk, IfErr, OnOk, length};
ghost use Rattle.zone_proto.specs.declared.record.Record.{Record as Signature};
ghost use Rattle.zone_proto.specs.Results.{IsCopy};
ghost use Rattle.zone_proto.specs.Sets.{AreSignatures};
ghost use Rattle.zone_map.specs.Renewals.{with_signatures, AreHanded};
ghost use Rattle.zone_map.specs.Zones.{AreStored, IsZone};
ghost use Rattle.zone_planning.specs.Filling.{blanks, filled, filled_list, filled_record, finish_fault, first_fault, is_as_long, numbers_in, signature_fault, signatures_text};

use crate::blank::blank_number;
use crate::fault::FinishFault;
use crate::plans::Plan;
use std::alloc::Global;
use zone_keys::signature_length;
use zone_map::RecordMap;
use zone_proto::{DNSKEY, LowerName, ProtoError, RData, Record, RecordType, RrKey, Rrsigs, Seq};

/// The signatures that are in octets one after the other, each behind two octets that count its octets. Refused by
/// `BadForm` for other octets, and by `Memory`.
pub fn read_signatures(alloc: Global, octets: &[u8]) -> Result<Vec<Seq<u8>>, FinishFault>
    ensures ok { IfOk result
        (λ signatures. signatures_text signatures.items ≡ octets.now) }
    ensures err { IfErr result
        (λ e. (e ≡ FinishFault.Memory)
        ⊎ ((e ≡ FinishFault.BadForm)
        × ((signatures : List (List ℕ)) → signatures_text signatures ≡ octets.now → ⊥))) }
{
    let mut signatures = Vec::new(alloc);
    let mut left = octets;
    while let Some((high, others)) = left.split_first() {
        let Some((low, others)) = others.split_first() else {
            return Err(FinishFault::BadForm);
        };
        let count = usize::from(*high) * 256 + usize::from(*low);
        if others.len() < count {
            return Err(FinishFault::BadForm);
        }
        let (signature, rest) = others.split_at(count);
        signatures.push(Seq::from_slice(alloc, signature)?)?;
        left = rest;
    }
    Ok(signatures)
}

/// A plan into which no signatures are put, and why.
#[derive(Drop)]
pub struct Unfinished {
    /// The plan, as it was.
    pub plan: Plan,
    /// Why.
    pub fault: FinishFault,
}

/// The zone of a plan with these signatures in the places of the blank ones, in order.
///
/// # Errors
///
/// Refused by `TooFew` and `TooMany`; for the first signature with which something is wrong by `UnknownKey` where the number in its
/// place is that of no key, and by `WrongLength` where it isn't as long as its key makes them; and by `Memory`. The plan is handed back.
pub fn finish(alloc: Global, plan: Plan, signatures: &[Seq<u8>]) -> Result<RecordMap, Unfinished>
    ensures filled { IfOk result
        (λ zone. zone ≡ with_signatures plan.records (filled plan.records signatures.now)) }
    ensures zone { IfOk result (λ zone. IsZone zone) }
    ensures faultless { OnOk result
        (finish_fault plan.keys.items plan.records signatures.now ≡ None) }
    ensures fault { IfErr result
        (λ e. (e.fault ≡ FinishFault.Memory)
        ⊎ (finish_fault plan.keys.items plan.records signatures.now ≡ Some e.fault)) }
    ensures same { IfErr result (λ e. e.plan ≡ plan) }
{
    match filled(alloc, &plan.records, plan.keys.as_slice(), signatures) {
        Ok(lists) => renew(alloc, plan, lists),
        Err(fault) => Err(Unfinished { plan, fault }),
    }
}

/// The zone of a plan with these lists of signatures, one for each set.
fn renew(alloc: Global, plan: Plan, lists: Vec<Option<Rrsigs>>) -> Result<RecordMap, Unfinished>
    requires handed { (made : List (List Signature))
        × AreHanded plan.records made lists.items [] }
    requires stored { AreStored plan.records }
    ensures sets { IfOk result
        (λ zone. (made : List (List Signature)) → AreHanded plan.records made lists.items []
        → zone ≡ with_signatures plan.records made) }
    ensures zone { IfOk result (λ zone. IsZone zone) }
    ensures err { IfErr result
        (λ e. (e.fault ≡ FinishFault.Memory) × (e.plan ≡ plan)) }
{
    let Ok(exchanged) = Rrsigs::with_capacity(alloc, 0) else {
        return Err(Unfinished {
            plan,
            fault: FinishFault::Memory,
        });
    };
    let Plan { mut records, keys } = plan;
    drop(keys);
    // No set stands under this key, so that no serial is stepped.
    let none = RrKey::new(LowerName::root(alloc), RecordType(0));
    records.renew(&none, lists, exchanged);
    Ok(records)
}

/// The signatures of all sets in the order of their keys, each as a list of its own.
fn filled(
    alloc: Global,
    records: &RecordMap,
    keys: &[DNSKEY],
    signatures: &[Seq<u8>],
) -> Result<Vec<Option<Rrsigs>>, FinishFault>
    ensures handed { IfOk result
        (λ lists. AreHanded records.now (filled records.now signatures.now) lists.items []) }
    ensures stored { OnOk result (AreStored records.now) }
    ensures faultless { OnOk result (finish_fault keys.now records.now signatures.now ≡ None) }
    ensures fault { IfErr result
        (λ e. (e ≡ FinishFault.Memory)
        ⊎ (finish_fault keys.now records.now signatures.now ≡ Some e)) }
{
    check_count(records, signatures.len())?;
    fill(alloc, records, keys, signatures)
}

/// Whether there are as many signatures as blank ones. Refused by `TooFew` and `TooMany`.
fn check_count(records: &RecordMap, count: usize) -> Result<(), FinishFault>
    ensures ok { OnOk result (count ≡ length (blanks records.now)) }
    ensures err { IfErr result
        (λ e. ((e ≡ FinishFault.TooFew) × (count < length (blanks records.now)))
        ⊎ ((e ≡ FinishFault.TooMany) × (length (blanks records.now) < count))) }
{
    let mut left = count;
    for (_, set) in records.iter() {
        let blank = count_of(set.rrsigs());
        if left < blank {
            return Err(FinishFault::TooFew);
        }
        left -= blank;
    }
    if left > 0 {
        return Err(FinishFault::TooMany);
    }
    Ok(())
}

/// How many of these signatures are blank.
fn count_of(signatures: &[Record]) -> usize
    ensures { result ≡ length (numbers_in signatures.now) }
{
    let mut count = 0;
    for signature in signatures {
        if blank_number(signature).is_some() {
            count += 1;
        }
    }
    count
}

/// The same where there are as many signatures as blank ones.
fn fill(
    alloc: Global,
    records: &RecordMap,
    keys: &[DNSKEY],
    signatures: &[Seq<u8>],
) -> Result<Vec<Option<Rrsigs>>, FinishFault>
    requires { length signatures.now ≡ length (blanks records.now) }
    ensures handed { IfOk result
        (λ lists. AreHanded records.now (filled records.now signatures.now) lists.items []) }
    ensures stored { OnOk result (AreStored records.now) }
    ensures faultless { OnOk result
        (first_fault keys.now 0 (blanks records.now) signatures.now ≡ None) }
    ensures fault { IfErr result
        (λ e. (e ≡ FinishFault.Memory)
        ⊎ (first_fault keys.now 0 (blanks records.now) signatures.now ≡ Some e)) }
{
    let mut lists = Vec::with_capacity(alloc, records.len())?;
    let mut place = 0;
    for (_, set) in records.iter() {
        let (_, left) = signatures.split_at(place);
        let list = match filled_list(alloc, keys, set.rrsigs(), left, place) {
            Ok(list) => list,
            Err(fault) => return Err(fault),
        };
        lists.push(Some(list))?;
        place += count_of(set.rrsigs());
    }
    Ok(lists)
}

/// Signatures in the places of blank ones, of which the first has this number.
fn filled_list(
    alloc: Global,
    keys: &[DNSKEY],
    blanks: &[Record],
    signatures: &[Seq<u8>],
    place: usize,
) -> Result<Rrsigs, FinishFault>
    requires kind { AreSignatures blanks.now }
    requires many { length (numbers_in blanks.now) ≤ length signatures.now }
    requires room { place + length signatures.now < 2 ^ 64 }
    ensures ok { IfOk result (λ list. list ≡ filled_list blanks.now signatures.now) }
    ensures faultless { OnOk result
        (first_fault keys.now place (numbers_in blanks.now) signatures.now ≡ None) }
    ensures fault { IfErr result
        (λ e. (e ≡ FinishFault.Memory)
        ⊎ (first_fault keys.now place (numbers_in blanks.now) signatures.now ≡ Some e)) }
{
    let mut list = Rrsigs::with_capacity(alloc, blanks.len())?;
    let mut taken = 0;
    for blank in blanks {
        match blank_number(blank) {
            Some(number) => {
                check_signature(keys, number, &signatures[taken], place + taken)?;
                list.push(filled_record(blank, &signatures[taken])?)?;
                taken += 1;
            }
            None => list.push(blank.clone()?)?,
        }
    }
    Ok(list)
}

/// A record of a blank signature, with this one in its place.
fn filled_record(blank: &Record, signature: &Seq<u8>) -> Result<Record, ProtoError>
    ensures { IsCopy result (filled_record blank.now signature.now) }
{
    let rdata = match &blank.rdata {
        RData::RRSIG(rrsig) => {
            let mut rrsig = rrsig.clone()?;
            rrsig.signature = signature.clone()?;
            RData::RRSIG(rrsig)
        }
        other => other.clone()?,
    };
    Ok(Record {
        name: blank.name.clone()?,
        dns_class: blank.dns_class,
        ttl: blank.ttl,
        rdata,
    })
}

/// Whether a signature can stand in place of one with this key's number. Refused by `UnknownKey` and `WrongLength`, with the
/// number of the signature.
fn check_signature(
    keys: &[DNSKEY],
    number: u8,
    signature: &Seq<u8>,
    place: usize,
) -> Result<(), FinishFault>
    ensures ok { OnOk result (signature_fault keys.now number signature.now place ≡ None) }
    ensures err { IfErr result
        (λ e. signature_fault keys.now number signature.now place ≡ Some e) }
{
    let Some(key) = keys.get(usize::from(number)) else {
        return Err(FinishFault::UnknownKey(place));
    };
    if !is_as_long(key, signature) {
        return Err(FinishFault::WrongLength(place));
    }
    Ok(())
}

/// Whether a signature is as long as those of a key, if its algorithm fixes that.
fn is_as_long(key: &DNSKEY, signature: &Seq<u8>) -> bool
    ensures { result ≡ is_as_long key.now signature.now }
{
    match signature_length(key) {
        Some(length) => signature.as_slice().len() == length,
        None => true,
    }
}
