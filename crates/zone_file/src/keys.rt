//! Keys and signatures.
ghost use Rattle.std.specs.Prelude.{◌≡◌, Ok};
ghost use Rattle.record_fields.specs.Readings.{Gives};
ghost use Rattle.record_fields.specs.Fields.{Left};
ghost use Rattle.zone_file.specs.Keys.{next_dnskey, next_rrsig};

use record_fields::{
    ReadError, Words, take_algorithm, take_base64, take_moment, take_name, take_type, take_u8,
    take_u16, take_u32,
};
use std::alloc::Global;
use zone_proto::{DNSKEY, Name, RRSIG, Seq};

/// Takes the parts of a DNSKEY.
#[tactic(auto, unfolding(crate::specs::Keys::next_dnskey))]
pub(crate) fn take_dnskey(alloc: Global, words: &mut Words<'_>) -> Result<DNSKEY, ReadError>
    ensures { Gives (λ d. (d, words.new)) result (next_dnskey words.old) }
{
    Ok(DNSKEY {
        flags: take_u16(words)?,
        protocol: take_u8(words)?,
        algorithm: take_algorithm(alloc, words)?,
        public_key: Seq::from_vec(take_base64(alloc, words)?),
    })
}

/// Takes the parts of an RRSIG.
#[tactic(auto, unfolding(crate::specs::Keys::next_rrsig))]
pub(crate) fn take_rrsig(
    alloc: Global,
    origin: &Name,
    words: &mut Words<'_>,
) -> Result<RRSIG, ReadError>
    ensures { Gives (λ d. (d, words.new)) result (next_rrsig origin.now words.old) }
{
    Ok(RRSIG {
        type_covered: take_type(alloc, words)?,
        algorithm: take_algorithm(alloc, words)?,
        num_labels: take_u8(words)?,
        original_ttl: take_u32(words)?,
        expiration: take_moment(words)?,
        inception: take_moment(words)?,
        key_tag: take_u16(words)?,
        signer_name: take_name(alloc, origin, words)?,
        signature: Seq::from_vec(take_base64(alloc, words)?),
    })
}
