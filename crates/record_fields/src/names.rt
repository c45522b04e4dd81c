//! Names of an entry.
ghost use Rattle.std.specs.Prelude.{◌≡◌, ◌≢◌, ◌≤◌, ◌++◌, ◌∷◌, length, Ok, Err, IfOk, OnOk};
ghost use Rattle.zone_proto.specs.Names.{wire_form};
ghost use Rattle.record_fields.specs.Parts.{next_name_octets};
ghost use Rattle.record_fields.specs.Rows.{behind};
ghost use Rattle.record_fields.specs.Readings.{Gives, after};
ghost use Rattle.record_fields.specs.Fields.{Left, named_at, next_name};
ghost use Rattle.record_fields.specs.Texts.{names_of, next_names};
ghost use Rattle.zone_tokens.specs.Names.{name_under};

use crate::fault::{Fault, ReadError, Reason};
use crate::words::Words;
use std::alloc::{AllocError, Global};
use zone_proto::{Name, ProtoError};
use zone_scanner::{Place, Word};
use zone_tokens::read_name_under;

/// Takes a name, which is completed by the origin where it isn't absolute.
///
/// # Errors
///
/// A fault of the word, or that there is none; `Memory` if memory is refused.
pub fn take_name(alloc: Global, origin: &Name, words: &mut Words<'_>) -> Result<Name, ReadError>
    ensures { Gives (λ n. (n, words.new)) result (next_name origin.now words.old) }
{
    let word = words.take()?;
    Ok(name_at(alloc, origin, words.place(), word.octets())?)
}

/// Reads a name from the octets of the word at this place.
#[tactic(auto, using(crate::proofs::NameFaults::name_given, crate::proofs::NameFaults::name_fails))]
fn name_at(alloc: Global, origin: &Name, place: Place, octets: &[u8]) -> Result<Name, ReadError>
    ensures { Gives (λ n. n) result (named_at place (name_under origin.now octets.now)) }
{
    match read_name_under(alloc, origin, octets) {
        Ok(name) => Ok(name),
        Err(error) => Err(name_fault(place, error)),
    }
}

/// Why a word at this place is no name, unless memory ran out.
fn name_fault(place: Place, error: ProtoError) -> ReadError
    ensures memory { error ≡ ProtoError.Memory → result ≡ ReadError.Memory }
    ensures fault { error ≢ ProtoError.Memory
        → result ≡ ReadError.Fault (record { place = place; reason = Reason.Name error }) }
{
    match error {
        ProtoError::Memory => ReadError::Memory,
        _ => ReadError::Fault(Fault {
            place,
            reason: Reason::Name(error),
        }),
    }
}

/// Takes a name, and appends its octets in wire form.
pub(crate) fn push_name(
    alloc: Global,
    origin: &Name,
    words: &mut Words<'_>,
    out: &mut Vec<u8>,
) -> Result<(), ReadError>
    ensures { Gives (λ _. (out.new.items, words.new)) result
        (behind out.old.items (next_name_octets origin.now words.old)) }
{
    let name = take_name(alloc, origin, words)?;
    Ok(push_wire_form(&name, out)?)
}

/// Takes names to the end of the entry, and appends their octets in wire form.
pub(crate) fn push_names(
    alloc: Global,
    origin: &Name,
    words: &mut Words<'_>,
    out: &mut Vec<u8>,
) -> Result<(), ReadError>
    ensures { Gives (λ _. (out.new.items, words.new)) result
        (behind out.old.items (next_names origin.now words.old)) }
{
    let names = words.take_rest();
    Ok(push_all(alloc, origin, names, out)?)
}

/// Appends the octets of the names that words are.
fn push_all(
    alloc: Global,
    origin: &Name,
    words: &[Word],
    out: &mut Vec<u8>,
) -> Result<(), ReadError>
    ensures { Gives (λ _. out.new.items) result
        (after out.old.items (names_of origin.now words.now)) }
{
    for word in words {
        if word.is_quoted() {
            return Err(ReadError::Fault(Fault {
                place: word.place(),
                reason: Reason::Quoted,
            }));
        }
        let name = name_at(alloc, origin, word.place(), word.octets())?;
        push_wire_form(&name, out)?;
    }
    Ok(())
}

/// Appends the octets of a name in wire form, the case of its letters as it is (RFC 1035 section 3.1).
fn push_wire_form(name: &Name, out: &mut Vec<u8>) -> Result<(), AllocError>
    ensures { OnOk result (out.new.items ≡ out.old.items ++ wire_form name.now) }
{
    for label in name.labels() {
        push_counted(label, out)?;
    }
    out.push(0)?;
    Ok(())
}

/// Appends octets behind their count.
pub(crate) fn push_counted(counted: &[u8], out: &mut Vec<u8>) -> Result<(), AllocError>
    requires { length counted.now ≤ 255 }
    ensures { OnOk result (out.new.items ≡ out.old.items ++ length counted.now ∷ counted.now) }
{
    out.push(counted.len() as u8)?;
    out.extend_from_slice(counted)?;
    Ok(())
}
