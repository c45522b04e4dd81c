//! Whether a zone at rest has a whole chain of trust.
ghost use Rattle.std.specs.Prelude.{◌≡◌, ◌↔◌, IsTrue};
ghost use Rattle.std.specs.List.{list_all, list_any};
ghost use Rattle.zone_rollover.specs.Chains.{IsWhole};
ghost use Rattle.zone_rollover.specs.Wholeness.{enters, enters_by, has, is_alike, is_chained, is_entered, is_signed, signs, signs_by, stands};

use crate::key_use::{Key, KeyUse, UsedKey};

/// Whether the chain of trust to each set of a zone that uses these keys is whole: a key of which the parent is to have a DS record
/// signs the DNSKEY set, in which it stands, and a key in that set signs each other set; and so it is with each algorithm in the DS
/// set and in the DNSKEY set (RFC 4035 sections 2.2 and 5). A zone has to be so before a rollover and after it.
pub fn is_whole(keys: &[UsedKey]) -> bool
    ensures { IsTrue result ↔ IsWhole keys.now }
{
    is_chained(keys)
}

/// A part of what is done with a key.
#[derive(Clone, Copy)]
pub(crate) enum Part {
    Published,
    SignsKeys,
    SignsOthers,
    WantsDs,
}

/// Whether a part is of a use.
fn has(usage: KeyUse, part: Part) -> bool
    ensures { result ≡ has usage part }
{
    match part {
        Part::Published => usage.is_published,
        Part::SignsKeys => usage.signs_keys,
        Part::SignsOthers => usage.signs_others,
        Part::WantsDs => usage.wants_ds,
    }
}

/// Whether this is done with a key.
fn stands(keys: &[UsedKey], key: Key, part: Part) -> bool
    ensures { result ≡ stands keys.now key part }
{
    keys.iter()
        .any(|other| other.key == key && has(other.usage, part))
}

/// Whether a DS record of a key leads to the DNSKEY set.
fn enters(keys: &[UsedKey], key: Key) -> bool
    ensures { result ≡ enters keys.now key }
{
    stands(keys, key, Part::WantsDs)
        && stands(keys, key, Part::Published)
        && stands(keys, key, Part::SignsKeys)
}

/// Whether a key in the DNSKEY set signs.
fn signs(keys: &[UsedKey], key: Key, part: Part) -> bool
    ensures { result ≡ signs keys.now key part }
{
    stands(keys, key, Part::Published) && stands(keys, key, part)
}

/// Whether a DS record of a key of an algorithm leads to the DNSKEY set.
fn enters_by(keys: &[UsedKey], algorithm: u8) -> bool
    ensures { result ≡ enters_by keys.now algorithm }
{
    keys.iter().any(|key| key.key.algorithm == algorithm && enters(keys, key.key))
}

/// Whether a key of an algorithm in the DNSKEY set signs.
fn signs_by(keys: &[UsedKey], algorithm: u8, part: Part) -> bool
    ensures { result ≡ signs_by keys.now part algorithm }
{
    keys.iter().any(|key| key.key.algorithm == algorithm && signs(keys, key.key, part))
}

/// Whether a key, if a DS record of it is wanted, is of an algorithm by which a DS record leads to the DNSKEY set.
fn is_entered_alike(keys: &[UsedKey], key: &UsedKey) -> bool
    ensures { result ≡ is_alike Part.WantsDs (enters_by keys.now) key.now }
{
    !key.usage.wants_ds || enters_by(keys, key.key.algorithm)
}

/// Whether a key, if it is in the DNSKEY set, is of an algorithm by which a key in it signs.
fn is_signed_alike(keys: &[UsedKey], key: &UsedKey, part: Part) -> bool
    ensures { result ≡ is_alike Part.Published (signs_by keys.now part) key.now }
{
    !key.usage.is_published || signs_by(keys, key.key.algorithm, part)
}

/// Whether this is done with a key.
fn some_has(keys: &[UsedKey], part: Part) -> bool
    ensures { result ≡ list_any (λ k. has k.usage part) keys.now }
{
    keys.iter().any(|key| has(key.usage, part))
}

/// Whether each algorithm in the DS set leads to the DNSKEY set.
fn each_enters(keys: &[UsedKey]) -> bool
    ensures { result ≡ list_all (is_alike Part.WantsDs (enters_by keys.now)) keys.now }
{
    keys.iter().all(|key| is_entered_alike(keys, key))
}

/// Whether each algorithm in the DNSKEY set signs.
fn each_signs(keys: &[UsedKey], part: Part) -> bool
    ensures { result ≡ list_all (is_alike Part.Published (signs_by keys.now part)) keys.now }
{
    keys.iter().all(|key| is_signed_alike(keys, key, part))
}

/// Whether there is a DS set, of which each algorithm leads to the DNSKEY set.
fn is_entered(keys: &[UsedKey]) -> bool
    ensures { result ≡ is_entered keys.now }
{
    some_has(keys, Part::WantsDs) && each_enters(keys)
}

/// Whether there is a DNSKEY set, of which each algorithm signs.
fn is_signed(keys: &[UsedKey], part: Part) -> bool
    ensures { result ≡ is_signed keys.now part }
{
    some_has(keys, Part::Published) && each_signs(keys, part)
}

/// Whether the DS set leads to the DNSKEY set, and that to itself and to all other sets.
fn is_chained(keys: &[UsedKey]) -> bool
    ensures { result ≡ is_chained keys.now }
{
    is_entered(keys) && is_signed(keys, Part::SignsKeys) && is_signed(keys, Part::SignsOthers)
}
