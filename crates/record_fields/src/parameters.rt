//! The parameters of a service.
ghost use Rattle.std.specs.Prelude.{◌≡◌, []};
ghost use Rattle.record_fields.specs.Readings.{Gives};
ghost use Rattle.record_fields.specs.Fields.{Left};
ghost use Rattle.record_fields.specs.Parameters.{error_at, first_parameter, is_value, next_parameters, parameters_of, with_text};
ghost use Rattle.record_fields.specs.Rows.{behind};

use crate::fault::{Fault, ReadError, Reason};
use crate::words::Words;
use service_parameters::{ParameterError, Parameters};
use std::alloc::Global;
use zone_scanner::{Place, Word};

/// Takes the parameters of a service to the end of the entry, and appends their octets.
pub(crate) fn push_parameters(
    alloc: Global,
    words: &mut Words<'_>,
    out: &mut Vec<u8>,
) -> Result<(), ReadError>
    ensures { Gives (λ _. (out.new.items, words.new)) result
        (behind out.old.items (next_parameters words.old)) }
{
    let place = words.place();
    let parameters = read_parameters(alloc, words.take_rest())?;
    match parameters.octets(alloc) {
        Ok(octets) => Ok(out.extend_from_slice(octets.as_slice())?),
        Err(error) => Err(error_at(place, error)),
    }
}

/// Reads the parameters that words write.
#[tactic(auto, using(crate::proofs::ParameterFacts::parameter_more, crate::proofs::ParameterFacts::parameter_fails))]
fn read_parameters(alloc: Global, words: &[Word]) -> Result<Parameters, ReadError>
    ensures { Gives (λ ps. ps) result (parameters_of [] words.now) }
{
    let mut parameters = Parameters::new(alloc);
    let mut left = words;
    while let Some((word, rest)) = left.split_first() {
        left = add_first(alloc, word, rest, &mut parameters)?;
    }
    Ok(parameters)
}

/// Adds the parameter that a word writes, with the next one if that is its value, and gives the words behind it.
fn add_first<'e>(
    alloc: Global,
    word: &Word,
    rest: &'e [Word],
    parameters: &mut Parameters,
) -> Result<&'e [Word], ReadError>
    ensures { Gives (λ left. (parameters.new, left.now)) result
        (first_parameter parameters.old word.now rest.now) }
{
    if let Some((value, others)) = rest.split_first() {
        if is_value(word, value) {
            let mut text = Vec::from_slice(alloc, word.octets())?;
            text.extend_from_slice(value.octets())?;
            add_text(alloc, word, text.as_slice(), parameters)?;
            return Ok(others);
        }
    }
    add_text(alloc, word, word.octets(), parameters)?;
    Ok(rest)
}

/// Whether a word is the value behind the `=` of the word before it.
fn is_value(word: &Word, value: &Word) -> bool
    ensures { result ≡ is_value word.now value.now }
{
    value.is_quoted() && value.is_joined() && word.octets().ends_with(b"=")
}

/// Adds the parameter of a word, which is this text with the value behind it.
fn add_text(
    alloc: Global,
    word: &Word,
    text: &[u8],
    parameters: &mut Parameters,
) -> Result<(), ReadError>
    ensures { Gives (λ _. parameters.new) result (with_text parameters.old word.now text.now) }
{
    if word.is_quoted() {
        return Err(ReadError::Fault(Fault {
            place: word.place(),
            reason: Reason::Quoted,
        }));
    }
    match parameters.add(alloc, text) {
        Ok(()) => Ok(()),
        Err(error) => Err(error_at(word.place(), error)),
    }
}

/// What is wrong with parameters, at a place.
fn error_at(place: Place, error: ParameterError) -> ReadError
    ensures { result ≡ error_at place error }
{
    match error {
        ParameterError::Memory => ReadError::Memory,
        ParameterError::Fault(fault) => ReadError::Fault(Fault {
            place,
            reason: Reason::Parameter(fault),
        }),
    }
}
