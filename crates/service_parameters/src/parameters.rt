//! The parameters of a service.
ghost use Rattle.std.specs.Prelude.{◌≡◌, ◌++◌, ◌≤◌, [], Some, None, Ok, IfErr, IfOk, if◌then◌else◌, length, nat_le, option_map};
ghost use Rattle.std.specs.List.{prefix_len};
ghost use Rattle.service_parameters.specs.Gives.{Gives};
ghost use Rattle.service_parameters.specs.Parameters.{KeyValue, all_octets, are_there, has_key, has_mandatory, octets_of, whole, with_parameter, with_word};

use crate::fault::{ParameterError, ParameterFault};
use crate::parameter::{Parameter, read_parameter};
use crate::values::push_short;
use std::alloc::{AllocError, Global};
use std::marker::Model;

/// Parameters of a service, in ascending order of their keys. Contracts see them as a list of `KeyValue`.
#[derive(Drop)]
pub struct Parameters {
    parameters: Vec<Parameter>,
}

impl Model for Parameters {
    ghost use Rattle.std.specs.Prelude.{List};
    ghost use Rattle.service_parameters.specs.Parameters.{KeyValue};

    ghost Value = { List KeyValue };

    ghost view = { λ p. p.parameters.items };
}

impl Parameters {
    /// No parameter. Takes no memory.
    pub fn new(alloc: Global) -> Parameters
        ensures { result ≡ [] }
    {
        Parameters {
            parameters: Vec::new(alloc),
        }
    }

    /// Reads a parameter from a word and adds it: a key, by its name or as `key` and its number, and behind a `=` its value, of
    /// which the octets are as in the text, with their escapes and without quotes (RFC 9460 section 2.1).
    ///
    /// # Errors
    ///
    /// `Fault` with `Key` if the word begins with no key, with `Value` if its value isn't of the form of the key, and with
    /// `Repeated` if a parameter has that key already; `Memory` if memory is refused. The parameters are as before then.
    pub fn add(&mut self, alloc: Global, word: &[u8]) -> Result<(), ParameterError>
        ensures value { Gives (λ _. self.new) result (with_word self.old word.now) }
        ensures unchanged { IfErr result (λ _. self.new ≡ self.old) }
    {
        let parameter = read_parameter(alloc, word)?;
        self.insert(parameter)
    }

    /// Adds a parameter, unless one has its key.
    fn insert(&mut self, parameter: Parameter) -> Result<(), ParameterError>
        ensures value { Gives (λ _. self.new) result (with_parameter self.old (Ok parameter)) }
        ensures unchanged { IfErr result (λ _. self.new ≡ self.old) }
    {
        if self.has_key(parameter.key()) {
            return Err(ParameterError::Fault(ParameterFault::Repeated));
        }
        let at = self.place_of(parameter.key());
        self.parameters.insert(at, parameter)?;
        Ok(())
    }

    /// Whether a parameter has this key.
    fn has_key(&self, key: u16) -> bool
        ensures { result ≡ has_key key self.now }
    {
        self.parameters
            .as_slice()
            .iter()
            .any(|parameter| parameter.key() == key)
    }

    /// How many parameters stand before the first with a greater key.
    fn place_of(&self, key: u16) -> usize
        ensures value { result
            ≡ prefix_len (λ (q : KeyValue). nat_le q.key key) self.now }
        ensures within { result ≤ length self.now }
    {
        self.parameters
            .as_slice()
            .iter()
            .take_while(|parameter| parameter.key() <= key)
            .count()
    }

    /// The octets of the parameters, as data have them: of each its key, the length of its value and the value, in ascending order
    /// of the keys (RFC 9460 section 2.2).
    ///
    /// # Errors
    ///
    /// `Fault` with `NoAlpn` if `no-default-alpn` is there and `alpn` isn't (section 7.1.1), with `NotThere` if a key isn't
    /// there that `mandatory` names (section 8), and with `TooLong` if a value has more than 65535 octets; `Memory` if memory is
    /// refused.
    pub fn octets(&self, alloc: Global) -> Result<Vec<u8>, ParameterError>
        ensures { Gives (λ os. os.items) result (whole self.now) }
    {
        if self.has_key(2) && !self.has_key(1) {
            return Err(ParameterError::Fault(ParameterFault::NoAlpn));
        }
        if !self.has_mandatory() {
            return Err(ParameterError::Fault(ParameterFault::NotThere));
        }
        match self.all_octets(alloc)? {
            Some(octets) => Ok(octets),
            None => Err(ParameterError::Fault(ParameterFault::TooLong)),
        }
    }

    /// Whether each key is there that `mandatory` names.
    fn has_mandatory(&self) -> bool
        ensures { result ≡ has_mandatory self.now }
    {
        for parameter in self.parameters.as_slice() {
            if parameter.key() == 0 && !self.has_all(parameter.value()) {
                return false;
            }
        }
        true
    }

    /// Whether each key is there of which octets are the numbers.
    fn has_all(&self, octets: &[u8]) -> bool
        ensures { result ≡ are_there octets.now self.now }
    {
        let mut rest = octets;
        while let [high, low, others @ ..] = rest {
            if !self.has_key(u16::from(*high) * 256 + u16::from(*low)) {
                return false;
            }
            rest = others;
        }
        true
    }

    /// The octets of all parameters; none if a value has too many.
    #[tactic(auto, using(crate::proofs::ValueFacts::parameter_read, crate::proofs::ValueFacts::parameter_not))]
    fn all_octets(&self, alloc: Global) -> Result<Option<Vec<u8>>, AllocError>
        ensures { IfOk result (λ os. option_map (λ o. o.items) os ≡ all_octets self.now) }
    {
        let mut octets = Vec::new(alloc);
        for parameter in self.parameters.as_slice() {
            if !push_parameter(parameter, &mut octets)? {
                return Ok(None);
            }
        }
        Ok(Some(octets))
    }
}

/// Appends the octets of a parameter, and gives whether its value hasn't too many.
fn push_parameter(parameter: &Parameter, out: &mut Vec<u8>) -> Result<bool, AllocError>
    ensures { IfOk result (λ is. (if is then Some out.new.items else None)
        ≡ option_map (λ os. out.old.items ++ os) (octets_of parameter.now)) }
{
    let value = parameter.value();
    if value.len() > 65_535 {
        return Ok(false);
    }
    push_short(parameter.key(), out)?;
    push_short(value.len() as u16, out)?;
    out.extend_from_slice(value)?;
    Ok(true)
}
