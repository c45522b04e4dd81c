//! Public keys, as the data of DNSKEY records.
ghost use Rattle.std.specs.Prelude.{◌≡◌, Some, None, IfOk, MatchOption};
ghost use Rattle.held_plans.specs.Keys.{AreKeys, AreNoKeys, key_in, keys_in};

use message_reading::plain_data_of;
use std::alloc::{AllocError, Global};
use zone_planning::{FinishFault, read_signatures};
use zone_proto::{DNSKEY, RData, RecordType, Seq};

/// The keys whose data (RFC 4034 section 2.1) are in octets one after the other, each behind two octets that count its octets; None for
/// other octets. Fails only for lack of memory.
#[tactic(auto, using(crate::proofs::KeyLists::are_keys, crate::proofs::KeyLists::are_none, crate::proofs::KeyLists::none_read))]
pub fn read_keys(alloc: Global, octets: &[u8]) -> Result<Option<Vec<DNSKEY>>, AllocError>
    ensures { IfOk result (λ read. MatchOption read (AreNoKeys octets.now)
        (λ keys. AreKeys octets.now keys.items)) }
{
    match read_signatures(alloc, octets) {
        Ok(texts) => match keys_in(alloc, texts.as_slice())? {
            Some(keys) => Ok(Some(keys)),
            None => Ok(None),
        },
        Err(FinishFault::Memory) => Err(AllocError),
        Err(_) => Ok(None),
    }
}

/// The keys of these data; None where some are none of a key. Fails only for lack of memory.
#[tactic(auto, using(crate::proofs::KeyLists::none_behind, crate::proofs::KeyLists::all_behind))]
fn keys_in(alloc: Global, texts: &[Seq<u8>]) -> Result<Option<Vec<DNSKEY>>, AllocError>
    ensures { IfOk result (λ read. MatchOption read (keys_in texts.now ≡ None)
        (λ keys. keys_in texts.now ≡ Some keys.items)) }
{
    let mut keys = Vec::new(alloc);
    for text in texts {
        match key_in(alloc, text.as_slice())? {
            Some(key) => keys.push(key)?,
            None => return Ok(None),
        }
    }
    Ok(Some(keys))
}

/// The key of these data; None where they are none of a key. Fails only for lack of memory.
fn key_in(alloc: Global, octets: &[u8]) -> Result<Option<DNSKEY>, AllocError>
    ensures { IfOk result (λ key. key_in octets.now ≡ key) }
{
    match plain_data_of(alloc, RecordType::DNSKEY, octets) {
        Ok(Some(RData::DNSKEY(key))) => Ok(Some(key)),
        Ok(_other) => Ok(None),
        Err(_) => Err(AllocError),
    }
}
