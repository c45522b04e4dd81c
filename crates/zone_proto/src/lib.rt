//! What zones consist of: names and their canonical order (RFC 4034 section 6.1), types and classes, the data of records,
//! records and record sets, the keys of a map of sets, and the traits for signers of sets and for hashes of names.
//!
//! Contracts see a name as the list of its labels, data and records as themselves, and a set as a plain value of owner,
//! type, class, TTL, serial, records and signatures. A call that takes memory answers a `Result`, and where a growth is
//! refused it answers `Memory`; a call that answers no `Result` takes none. The modules `laws` and `data_laws` prove what
//! holds of the definitions themselves.
#![tactic(auto)]

mod base32;
mod counted;
pub mod data_laws;
mod dns_class;
mod error;
mod escaped;
mod form;
mod insertion;
mod labels;
mod labels_iter;
pub mod laws;
mod letter_case;
mod lower_name;
mod message;
mod name;
mod name_hash;
mod name_order;
mod nsec3_hash;
mod nx_proof_kind;
mod octet_order;
mod octets;
mod packed;
mod parser;
mod prepended_labels;
mod rdata;
mod record;
mod record_set;
mod record_type;
mod response_code;
mod rr_key;
mod rrset_records;
mod rrsigs;
mod seq;
mod serials;
mod short_list;
mod signer;
mod sizes;
mod soa_record;
mod stepping;
mod storage;
mod suffixes;
mod text;
mod type_kinds;
mod unescaped;
mod wire;
mod wire_reader;

pub use base32::{Base32Text, base32_dnssec};
pub use dns_class::DNSClass;
pub use error::ProtoError;
pub use labels_iter::Labels;
pub use lower_name::LowerName;
pub use message::{Edns, EdnsFlags, Message, Query};
pub use name::Name;
pub use name_order::{compare_labels, labels_are_above};
pub use nsec3_hash::Nsec3Hash;
pub use nx_proof_kind::NxProofKind;
pub use prepended_labels::PrependedLabels;
pub use rdata::{DNSKEY, MX, NSEC, NSEC3, NSEC3PARAM, OtherData, RData, RRSIG, SOA, SRV};
pub use record::Record;
pub use record_set::RecordSet;
pub use record_type::RecordType;
pub use response_code::ResponseCode;
pub use rr_key::RrKey;
pub use rrset_records::RrsetRecords;
pub use rrsigs::Rrsigs;
pub use seq::Seq;
pub use serials::{first_serial, is_newer, soa_serial};
pub use signer::Signer;
pub use soa_record::SoaRecord;
pub use suffixes::Suffixes;
pub use type_kinds::{is_derived, is_single};
