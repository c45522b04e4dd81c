//! DNSKEY and RRSIG (RFC 4034 sections 2 and 3).
ghost use Rattle.zone_proto.specs.Results.{IsCopy};

use crate::error::ProtoError;
use crate::name::Name;
use crate::record_type::RecordType;
use crate::seq::Seq;

/// The data of a DNSKEY record: a zone's public key (RFC 4034 section 2.1).
///
/// Equal by all parts.
#[derive(PartialEq, Eq, PartialOrd, Ord, Debug, Drop)]
pub struct DNSKEY {
    /// 256 for a zone key, 257 for one that is a secure entry point too.
    pub flags: u16,
    /// 3 by the standard.
    pub protocol: u8,
    /// The algorithm's number.
    pub algorithm: u8,
    /// The key's octets.
    pub public_key: Seq<u8>,
}

impl DNSKEY {
    /// A copy of these data, identical in all parts. Its only error is `Memory`.
    pub fn clone(&self) -> Result<DNSKEY, ProtoError>
        ensures { IsCopy result self.now }
    {
        Ok(DNSKEY {
            flags: self.flags,
            protocol: self.protocol,
            algorithm: self.algorithm,
            public_key: self.public_key.clone()?,
        })
    }
}

/// The data of an RRSIG record: the signature of a record set (RFC 4034 section 3.1).
///
/// Equal by all parts, names ignoring case.
#[derive(PartialEq, Eq, PartialOrd, Ord, Debug, Drop)]
pub struct RRSIG {
    /// The type of the signed set.
    pub type_covered: RecordType,
    /// The algorithm's number.
    pub algorithm: u8,
    /// The labels of the owner, without the root and a leading `*`.
    pub num_labels: u8,
    /// The TTL of the signed set, in seconds.
    pub original_ttl: u32,
    /// The last moment at which the signature holds, in seconds since 1970 modulo 2^32.
    pub expiration: u32,
    /// The first moment at which the signature holds, in seconds since 1970 modulo 2^32.
    pub inception: u32,
    /// The tag of the key.
    pub key_tag: u16,
    /// The owner of the key.
    pub signer_name: Name,
    /// The signature's octets.
    pub signature: Seq<u8>,
}

impl RRSIG {
    /// A copy of these data, identical in all parts, even in the case of letters in names. Its only error is `Memory`.
    pub fn clone(&self) -> Result<RRSIG, ProtoError>
        ensures { IsCopy result self.now }
    {
        Ok(RRSIG {
            type_covered: self.type_covered,
            algorithm: self.algorithm,
            num_labels: self.num_labels,
            original_ttl: self.original_ttl,
            expiration: self.expiration,
            inception: self.inception,
            key_tag: self.key_tag,
            signer_name: self.signer_name.clone()?,
            signature: self.signature.clone()?,
        })
    }
}
