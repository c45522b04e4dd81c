//! HMAC (RFC 2104 section 2).
ghost use Rattle.std.specs.Prelude.{◌≡◌, ◌++◌, IfOk, length};
ghost use Rattle.message_hmac.specs.Algorithms.{block_by, hash_by, mac_by, size_by};
ghost use Rattle.message_hmac.specs.Hmac.{block_key, filled, masked, short_key};

use crate::algorithm::Algorithm;
use crate::secret::Secret;
use std::alloc::{AllocError, Global};

/// What the octets of a key are combined with outside and inside (RFC 2104 section 2).
const OUTER: u8 = 0x5C;

const INNER: u8 = 0x36;

/// The code of three pieces, one behind the other, under a key of any length (RFC 2104 section 2): pieces, so that a message isn't
/// copied to stand between what is digested before and behind it. Refused for want of memory alone.
#[tactic(auto, using(crate::proofs::Lengths::length_of_hash), unfolding(crate::specs::Algorithms::mac_by))]
pub fn mac(
    alloc: Global,
    algorithm: Algorithm,
    key: &[u8],
    first: &[u8],
    second: &[u8],
    third: &[u8],
) -> Result<Vec<u8>, AllocError>
    ensures code { IfOk result (λ code. code.items
        ≡ mac_by algorithm key.now ((first.now ++ second.now) ++ third.now)) }
    ensures length { IfOk result (λ code. length code.items ≡ size_by algorithm) }
{
    let block = block_key(alloc, algorithm, key)?;
    let inner = masked(alloc, INNER, block.as_slice())?;
    let inner = algorithm.hash(alloc, inner.as_slice(), first, second, third)?;
    let outer = masked(alloc, OUTER, block.as_slice())?;
    algorithm.hash(alloc, outer.as_slice(), inner.as_slice(), &[], &[])
}

/// The key as a block.
fn block_key(alloc: Global, algorithm: Algorithm, key: &[u8]) -> Result<Secret, AllocError>
    ensures { IfOk result (λ block. block
        ≡ block_key (hash_by algorithm) (block_by algorithm) key.now) }
{
    let short = short_key(alloc, algorithm, key)?;
    let fill = vec![in alloc; 0u8; algorithm.block().saturating_sub(short.as_slice().len())]?;
    // With room for all of it: a growth would leave octets of the key where they were.
    let mut octets = Vec::with_capacity(alloc, algorithm.block())?;
    octets.extend_from_slice(short.as_slice())?;
    octets.extend_from_slice(fill.as_slice())?;
    Ok(Secret::new(octets))
}

/// The key, hashed where it has more octets than a block.
fn short_key(alloc: Global, algorithm: Algorithm, key: &[u8]) -> Result<Secret, AllocError>
    ensures { IfOk result (λ short. short
        ≡ short_key (hash_by algorithm) (block_by algorithm) key.now) }
{
    if algorithm.block() < key.len() {
        Ok(Secret::new(algorithm.hash(alloc, key, &[], &[], &[])?))
    } else {
        Ok(Secret::new(Vec::from_slice(alloc, key)?))
    }
}

/// Each octet combined with one octet.
fn masked(alloc: Global, mask: u8, octets: &[u8]) -> Result<Secret, AllocError>
    ensures { IfOk result (λ combined. combined ≡ masked mask octets.now) }
{
    let mut combined = Vec::with_capacity(alloc, octets.len())?;
    for octet in octets {
        combined.push(*octet ^ mask)?;
    }
    Ok(Secret::new(combined))
}
