//! The data of a record, read by their type and printed. What the data of a type are is in a file of its family.
ghost use Rattle.std.specs.Prelude.{◌≡◌, Some, IfOk};
ghost use Rattle.line_text.specs.Data.{data_text, next_data};
ghost use Rattle.line_text.specs.Errors.{OnBadText};

mod denial;
mod mail_exchange;
mod other;
mod service;
mod signing;
mod start_of_authority;

use crate::addresses::{Ipv4Text, Ipv6Text, take_ipv4, take_ipv6};
use crate::error::TextError;
use crate::hex::HexText;
use crate::names::read_name;
use crate::words::Words;
use denial::{Nsec3ParametersText, Nsec3Text, NsecText};
use mail_exchange::{MxText, read_mx};
use other::read_other;
use service::{SrvText, read_srv};
use signing::{KeyText, SignatureText};
use start_of_authority::{SoaText, read_soa};
use std::alloc::Global;
use std::fmt;
use zone_proto::{RData, RecordType};

/// Reads the words that are left of a line as the data of a record of this type, their parts in the order of the type's
/// standard, and those of a type that `RData` has no case for as one word of hex. Words that follow the data stay.
///
/// # Errors
/// `BadText` where the words aren't that, and for DNSKEY, NSEC, NSEC3, NSEC3PARAM and RRSIG, whose data aren't read.
/// Its only error is `Memory`. After a refusal the words are of no more use.
#[tactic(auto, using(crate::proofs::ReadingFacts::reading))]
pub fn read_data(
    alloc: Global,
    record_type: RecordType,
    words: &mut Words<'_>,
) -> Result<RData, TextError>
    ensures ok { IfOk result (λ d. next_data record_type.0 words.old ≡ Some (d, words.new)) }
    ensures refusal { OnBadText result (next_data record_type.0 words.old ≡ None) }
{
    match record_type {
        RecordType::A => Ok(RData::A(take_ipv4(words)?)),
        RecordType::AAAA => Ok(RData::AAAA(take_ipv6(words)?)),
        RecordType::NS => Ok(RData::NS(read_name(alloc, words)?)),
        RecordType::CNAME => Ok(RData::CNAME(read_name(alloc, words)?)),
        RecordType::ANAME => Ok(RData::ANAME(read_name(alloc, words)?)),
        RecordType::SOA => Ok(RData::SOA(read_soa(alloc, words)?)),
        RecordType::MX => Ok(RData::MX(read_mx(alloc, words)?)),
        RecordType::SRV => Ok(RData::SRV(read_srv(alloc, words)?)),
        _ => read_other(alloc, record_type, words),
    }
}

/// The data of a record as text: their parts in the order of the type's standard, with single spaces between them, octets in
/// hex, and the hash of an NSEC3 in base32hex. `read_data` reads this as the same data, of each type that it reads, unless a
/// timer of an SOA is below zero.
#[derive(Drop)]
pub struct DataText<'r>(pub &'r RData);

impl fmt::Display for DataText<'_> {
    ghost output = { λ d. Some (data_text d.0.now) };

    fn fmt<W: fmt::Write>(&self, f: &mut fmt::Formatter<W>) -> fmt::Result {
        match self.0 {
            RData::A(address) => write!(f, "{}", Ipv4Text(address)),
            RData::AAAA(address) => write!(f, "{}", Ipv6Text(address)),
            RData::NS(name) => write!(f, "{name}"),
            RData::CNAME(name) => write!(f, "{name}"),
            RData::ANAME(name) => write!(f, "{name}"),
            RData::SOA(soa) => write!(f, "{}", SoaText(soa)),
            RData::MX(mx) => write!(f, "{}", MxText(mx)),
            RData::SRV(srv) => write!(f, "{}", SrvText(srv)),
            RData::DNSKEY(key) => write!(f, "{}", KeyText(key)),
            RData::NSEC(nsec) => write!(f, "{}", NsecText(nsec)),
            RData::NSEC3(nsec3) => write!(f, "{}", Nsec3Text(nsec3)),
            RData::NSEC3PARAM(parameters) => write!(f, "{}", Nsec3ParametersText(parameters)),
            RData::RRSIG(rrsig) => write!(f, "{}", SignatureText(rrsig)),
            RData::Other(other) => write!(f, "{}", HexText(other.octets())),
        }
    }
}
