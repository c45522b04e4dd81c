//! Keys (RFC 8945 section 3).
ghost use Rattle.std.specs.Prelude.{◌≡◌, IfOk, option_copied};
ghost use Rattle.std.specs.List.{find, list_any};
ghost use Rattle.zone_proto.specs.Names.{Name as LabelsOf, wire_form};
ghost use Rattle.message_tsig.specs.Keys.{algorithm_name, are_same, has_zone, is_named, key_for, may_have, names_key};

use crate::tsig::Tsig;
use message_hmac::{Algorithm, Secret, same_octets};
use std::alloc::Global;
use zone_proto::{LowerName, Name, ProtoError};

/// A key that a server shares with others, who sign their requests with it (RFC 8945 section 3). It has no `Debug`, so that its secret is in
/// no message.
#[derive(Drop)]
pub struct Key {
    /// Its name.
    pub name: LowerName,
    /// The algorithm by which MACs under it are made.
    pub algorithm: Algorithm,
    /// Its secret; RFC 2104 section 3 advises against fewer octets than a MAC has.
    pub secret: Secret,
    /// The zones that may be transferred to those who have it.
    pub zones: KeyZones,
}

/// The zones that may be transferred to those who have a key, of those that are transferred under a key at all.
#[derive(Drop)]
pub enum KeyZones {
    /// All of them.
    All,
    /// Those of these origins.
    Only(Vec<LowerName>),
}

impl Key {
    /// Whether the zone of an origin may be transferred to those who have the key. Takes no memory.
    pub fn may_have(&self, origin: &LowerName) -> bool
        ensures { result ≡ may_have self.now origin.now }
    {
        self.zones.has(origin)
    }
}

impl KeyZones {
    /// Whether the zone of an origin is among them. Takes no memory.
    pub fn has(&self, origin: &LowerName) -> bool
        ensures { result ≡ has_zone origin.now self.now }
    {
        match self {
            KeyZones::All => true,
            KeyZones::Only(origins) => is_among(origin, origins.as_slice()),
        }
    }
}

/// Whether an origin is one of some.
fn is_among(origin: &LowerName, origins: &[LowerName]) -> bool
    ensures { result ≡ list_any (λ (x : LabelsOf). are_same x origin.now) origins.now }
{
    origins.iter().any(|zone| zone == origin)
}

/// The name of an algorithm in wire form (RFC 8945 section 6).
pub(crate) fn algorithm_text(algorithm: Algorithm) -> &'static [u8]
    ensures { result.now ≡ wire_form (algorithm_name algorithm) }
{
    match algorithm {
        Algorithm::Sha1 => b"\x09hmac-sha1\x00",
        Algorithm::Sha224 => b"\x0bhmac-sha224\x00",
        Algorithm::Sha256 => b"\x0bhmac-sha256\x00",
        Algorithm::Sha384 => b"\x0bhmac-sha384\x00",
        Algorithm::Sha512 => b"\x0bhmac-sha512\x00",
    }
}

/// The name of an algorithm (RFC 8945 section 6). Takes no memory.
#[tactic(auto, using(crate::proofs::AlgorithmNames::only_name))]
pub(crate) fn algorithm_name(alloc: Global, algorithm: Algorithm) -> Result<Name, ProtoError>
    ensures { IfOk result (λ name. name ≡ algorithm_name algorithm) }
{
    Name::from_wire(alloc, algorithm_text(algorithm))
}

/// The first of some keys that a TSIG names.
pub(crate) fn key_for<'k>(tsig: &Tsig, keys: &'k [Key]) -> Result<Option<&'k Key>, ProtoError>
    ensures { IfOk result (λ key. option_copied key ≡ key_for tsig.now keys.now) }
{
    let name = LowerName::new(&tsig.name)?;
    let algorithm = tsig.algorithm.wire_lower()?;
    Ok(find_named(&name, algorithm.as_slice(), keys))
}

/// Whether a TSIG names a key.
pub(crate) fn names_key(tsig: &Tsig, key: &Key) -> Result<bool, ProtoError>
    ensures { IfOk result (λ named. named ≡ names_key tsig.now key.now) }
{
    let name = LowerName::new(&tsig.name)?;
    let algorithm = tsig.algorithm.wire_lower()?;
    Ok(is_named(&name, algorithm.as_slice(), key))
}

/// The first of some keys that has this name and algorithm.
fn find_named<'k>(name: &LowerName, algorithm: &[u8], keys: &'k [Key]) -> Option<&'k Key>
    ensures { option_copied result ≡ find (is_named name.now algorithm.now) keys.now }
{
    keys.iter().find(|key| is_named(name, algorithm, key))
}

/// Whether a key has this name and algorithm.
fn is_named(name: &LowerName, algorithm: &[u8], key: &Key) -> bool
    ensures { result ≡ is_named name.now algorithm.now key.now }
{
    key.name == *name && same_octets(algorithm_text(key.algorithm), algorithm)
}
