//! A service parameter, and the word that writes it.
ghost use Rattle.std.specs.Prelude.{◌≡◌, ◌≤◌, drop, length};
ghost use Rattle.service_parameters.specs.Parameters.{equals_at, key_text, parameter_of, value_behind, value_text};
ghost use Rattle.service_parameters.specs.Gives.{Gives};

use crate::fault::{ParameterError, ParameterFault};
use crate::keys::{Key, read_key};
use crate::values::read_value;
use std::alloc::Global;
use std::marker::Model;
use zone_tokens::read_octets;

/// A parameter of a service. Contracts see it as a `KeyValue`.
#[derive(Drop)]
pub(crate) struct Parameter {
    key: u16,
    value: Vec<u8>,
}

impl Model for Parameter {
    ghost use Rattle.service_parameters.specs.Parameters.{KeyValue, key_value};

    ghost Value = { KeyValue };

    ghost view = { λ p. key_value p.key p.value.items };
}

impl Parameter {
    /// The number of its key.
    pub(crate) fn key(&self) -> u16
        ensures { result ≡ self.now.key }
    {
        self.key
    }

    /// Its value, as data have it.
    pub(crate) fn value(&self) -> &[u8]
        ensures { result.now ≡ self.now.value }
    {
        self.value.as_slice()
    }
}

/// Reads a parameter: a key, and behind a `=` its value.
#[tactic(auto, unfolding(crate::specs::Parameters::parameter_of))]
pub(crate) fn read_parameter(alloc: Global, word: &[u8]) -> Result<Parameter, ParameterError>
    ensures { Gives (λ p. p) result (parameter_of word.now) }
{
    read_behind(alloc, read_key(key_text(word)), value_text(word))
}

/// The text of a key, up to the `=` behind it.
fn key_text(word: &[u8]) -> &[u8]
    ensures { result.now ≡ key_text word.now }
{
    let (text, _) = word.split_at(equals_at(word));
    text
}

/// The text of a value, behind the `=`.
fn value_text(word: &[u8]) -> &[u8]
    ensures { result.now ≡ value_text word.now }
{
    let (_, behind) = word.split_at(equals_at(word));
    without_first(behind)
}

/// Reads the parameter of a key, if a word begins with one, with this text of its value.
fn read_behind(alloc: Global, key: Option<Key>, text: &[u8]) -> Result<Parameter, ParameterError>
    ensures { Gives (λ p. p) result (value_behind key text.now) }
{
    let Some(key) = key else {
        return Err(ParameterError::Fault(ParameterFault::Key));
    };
    let Some(octets) = read_octets(alloc, text)? else {
        return Err(ParameterError::Fault(ParameterFault::Value));
    };
    match read_value(alloc, key, octets.as_slice())? {
        Some(value) => Ok(Parameter {
            key: key.number(),
            value,
        }),
        None => Err(ParameterError::Fault(ParameterFault::Value)),
    }
}

/// How many octets stand before the first `=`.
fn equals_at(word: &[u8]) -> usize
    ensures value { result ≡ equals_at word.now }
    ensures within { result ≤ length word.now }
{
    word.iter().take_while(|octet| **octet != b'=').count()
}

/// Octets without the first of them.
fn without_first(octets: &[u8]) -> &[u8]
    ensures { result.now ≡ drop 1 octets.now }
{
    match octets {
        [] => octets,
        [_, others @ ..] => others,
    }
}
