//! Names read from their wire form (RFC 1035 section 3.1).
ghost use Rattle.std.specs.Prelude.{◌≡◌, ◌≤◌, IfOk, IfErr, IsTrue, length, nat_lt, if◌then◌else◌, Some, None};
ghost use Rattle.std.specs.List.{AllByRecursion};
ghost use Rattle.zone_proto.specs.Counting.{counted_name, IsCounting};
ghost use Rattle.zone_proto.specs.Names.{wire_form, IsName};
ghost use Rattle.zone_proto.specs.Ranges.{IsOctet};
ghost use Rattle.zone_proto.specs.Packing.{packing, IsPackable};
ghost use Rattle.zone_proto.specs.Faults.{first_of_faults};
ghost use Rattle.zone_proto.specs.Forms.{labels_of};
ghost use Rattle.zone_proto.specs.WireForms.{IsWireFault, IsWireForm, ReportsWireFault};

use crate::counted::split_counted;
use crate::error::ProtoError;
use crate::form::{Form, is_inner};
use crate::labels::{LONGEST_LABEL, LONGEST_NAME};
use crate::packed::Packed;
use crate::storage::{INLINE_OCTETS, Short};
use std::alloc::{AllocError, Global};

/// The labels of the name whose wire form the octets are.
pub(crate) fn read_wire(alloc: Global, octets: &[u8]) -> Result<Form, ProtoError>
    ensures ok { IfOk result (λ f. octets.now ≡ wire_form (labels_of f)) }
    ensures name { IfOk result (λ f. IsName (labels_of f)) }
    ensures refusal { ReportsWireFault result octets.now }
{
    let labels = check_wire(octets)?;
    if are_inner(labels) {
        Ok(pack(alloc, labels)?)
    } else {
        Ok(Form::of_counting(Vec::from_slice(alloc, labels)?)?)
    }
}

/// Whether none of the labels has an octet 0 or 1.
fn are_inner(labels: &[u8]) -> bool
    requires { IsCounting labels.now (counted_name labels.now) }
    ensures { IsTrue result → IsPackable (counted_name labels.now) }
{
    let mut rest = labels;
    while let Some((label, after)) = split_counted(rest) {
        if !is_inner(label) {
            return false;
        }
        rest = after;
    }
    true
}

/// The labels behind their lengths, without the end, where the octets are the wire form of a name; else the first fault.
fn check_wire(octets: &[u8]) -> Result<&[u8], ProtoError>
    ensures ok { IfOk result (λ labels. IsWireForm octets.now labels.now) }
    ensures refusal { IfErr result (IsWireFault octets.now) }
{
    let mut fault: Option<ProtoError> = None;
    let mut rest = octets;
    while let Some((first, after)) = rest.split_first() {
        let count = usize::from(*first);
        if count == 0 {
            if !after.is_empty() {
                return Err(ProtoError::BadText);
            }
            return match fault {
                Some(fault) => Err(fault),
                None if octets.len() > LONGEST_NAME => Err(ProtoError::NameTooLong),
                None => Ok(&octets[..octets.len() - 1]),
            };
        }
        if after.len() < count {
            return Err(ProtoError::BadText);
        }
        let (label, next) = after.split_at(count);
        fault = first_fault(fault, label);
        rest = next;
    }
    Err(ProtoError::BadText)
}

/// The fault, or if there is none that of a label, which has octets.
fn first_fault(fault: Option<ProtoError>, label: &[u8]) -> Option<ProtoError>
    ensures first { result
        ≡ first_of_faults fault
        (if nat_lt 63 (length label.now) then Some ProtoError.LabelTooLong else None) }
    ensures octets { AllByRecursion IsOctet label.now }
{
    match fault {
        Some(fault) => Some(fault),
        None if label.len() > LONGEST_LABEL => Some(ProtoError::LabelTooLong),
        None => None,
    }
}

/// The labels, none of which has an octet 0 or 1, each before its end. Up to 30 octets take no memory.
fn pack(alloc: Global, labels: &[u8]) -> Result<Form, AllocError>
    requires counting { IsCounting labels.now (counted_name labels.now) }
    requires inner { IsPackable (counted_name labels.now) }
    ensures { IfOk result (λ f. labels_of f ≡ counted_name labels.now) }
{
    if labels.len() <= INLINE_OCTETS {
        return Ok(Form::ShortPacked(pack_short(alloc, labels)));
    }
    let mut octets = Vec::from_elem(alloc, 0, labels.len())?;
    write_packing(octets.as_mut_slice(), labels);
    Ok(Form::LongPacked(Packed::of_octets(octets)))
}

/// Up to 30 octets of labels, none of which has an octet 0 or 1, each before its end.
fn pack_short(alloc: Global, labels: &[u8]) -> Packed<Short>
    requires counting { IsCounting labels.now (counted_name labels.now) }
    requires inner { IsPackable (counted_name labels.now) }
    requires few { length labels.now ≤ 30 }
    ensures { result ≡ counted_name labels.now }
{
    let mut room = [0; INLINE_OCTETS];
    write_packing(&mut room[..labels.len()], labels);
    Packed::of_octets(Short::first(alloc, room, labels.len()))
}

/// Writes the labels from the root on, each before its end. What follows a label in their wire form is as long as what
/// precedes it here.
fn write_packing(octets: &mut [u8], labels: &[u8])
    requires counting { IsCounting labels.now (counted_name labels.now) }
    requires room { length octets.old ≡ length labels.now }
    ensures { octets.new ≡ packing (counted_name labels.now) }
{
    let mut rest = labels;
    while let Some((label, after)) = split_counted(rest) {
        let start = after.len();
        let end = start + label.len();
        octets[start..end].copy_from_slice(label);
        octets[end] = 0;
        rest = after;
    }
}
