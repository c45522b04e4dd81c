//! Reads records and data of every type, those too that the program doesn't read.

use crate::arguments::{Arguments, take};
use crate::read_arguments::{read_kinds, take_text};
use line_text::{TextError, Words, read_data, read_type};
use zone_proto::{DNSClass, DNSKEY, NSEC, NSEC3, NSEC3PARAM, RData, RRSIG, RecordType, Seq};

/// Reads `NAME TTL TYPE DATA`, or the same with `CH` before the type.
pub fn read_record(arguments: &mut Arguments<'_>, words: &mut Words<'_>) {
    read_kinds(arguments, words, "NAME NUMBER");
    let mut class = DNSClass::IN;
    let record_type = read_type_after_class(words, &mut class);
    arguments.fault.push(&mut arguments.classes, Ok(class));
    read_parts(arguments, words, record_type);
}

/// Reads a type, which `CH` may come before.
fn read_type_after_class(
    words: &mut Words<'_>,
    class: &mut DNSClass,
) -> Result<RecordType, TextError> {
    match take_text(words) {
        "CH" => {
            *class = DNSClass::CH;
            read_type(words)
        }
        word => RecordType::from_text(word).ok_or(TextError::BadText),
    }
}

/// Reads a type and its data.
pub fn read_typed_data(arguments: &mut Arguments<'_>, words: &mut Words<'_>) {
    let record_type = read_type(words);
    read_parts(arguments, words, record_type);
}

/// Reads the parts of data of a type, or data whose parts the program reads.
fn read_parts(
    arguments: &mut Arguments<'_>,
    words: &mut Words<'_>,
    record_type: Result<RecordType, TextError>,
) {
    let data_type = record_type.unwrap_or(RecordType::A);
    arguments.fault.push(&mut arguments.data_types, record_type);
    match parts_of(data_type) {
        Some(kinds) => read_kinds(arguments, words, kinds),
        None => {
            let rdata = read_data(arguments.alloc, data_type, words);
            arguments.fault.push(&mut arguments.data, rdata);
        }
    }
}

/// The parts of the data of a type that the program doesn't read, in the order of its standard: of DNSKEY RFC 4034 section 2.2,
/// of RRSIG section 3.2, of NSEC section 4.2, of NSEC3 RFC 5155 section 3.3, of NSEC3PARAM section 4.3. The next hashed owner
/// name of an NSEC3 is read in hex.
fn parts_of(record_type: RecordType) -> Option<&'static str> {
    match record_type {
        RecordType::DNSKEY => Some("NUMBER NUMBER NUMBER OCTETS"),
        RecordType::NSEC => Some("NAME TYPES"),
        RecordType::NSEC3 => Some("NUMBER NUMBER NUMBER OCTETS OCTETS TYPES"),
        RecordType::NSEC3PARAM => Some("NUMBER NUMBER NUMBER OCTETS"),
        RecordType::RRSIG => Some("TYPE NUMBER NUMBER NUMBER NUMBER NUMBER NUMBER NAME OCTETS"),
        _ => None,
    }
}

impl<'r> Arguments<'r> {
    /// The data of the type that was read, of their parts from the last on.
    pub fn take_data(&mut self) -> RData {
        match take(&mut self.data_types, RecordType::A) {
            RecordType::DNSKEY => RData::DNSKEY(self.take_key_data()),
            RecordType::NSEC => RData::NSEC(self.take_denial()),
            RecordType::NSEC3 => RData::NSEC3(self.take_hashed_denial()),
            RecordType::NSEC3PARAM => RData::NSEC3PARAM(self.take_parameters()),
            RecordType::RRSIG => RData::RRSIG(self.take_signature()),
            _ => take(&mut self.data, RData::A([0, 0, 0, 0])),
        }
    }

    fn take_key_data(&mut self) -> DNSKEY {
        DNSKEY {
            public_key: Seq::from_vec(self.take_octets()),
            algorithm: self.take_octet(),
            protocol: self.take_octet(),
            flags: self.take_short(),
        }
    }

    fn take_denial(&mut self) -> NSEC {
        NSEC {
            types: Seq::from_vec(self.take_types()),
            next_domain_name: self.take_name(),
        }
    }

    fn take_hashed_denial(&mut self) -> NSEC3 {
        NSEC3 {
            types: Seq::from_vec(self.take_types()),
            next_hashed_owner_name: Seq::from_vec(self.take_octets()),
            salt: Seq::from_vec(self.take_octets()),
            iterations: self.take_short(),
            opt_out: self.take_octet() == 1,
            algorithm: self.take_octet(),
        }
    }

    fn take_parameters(&mut self) -> NSEC3PARAM {
        NSEC3PARAM {
            salt: Seq::from_vec(self.take_octets()),
            iterations: self.take_short(),
            opt_out: self.take_octet() == 1,
            algorithm: self.take_octet(),
        }
    }

    fn take_signature(&mut self) -> RRSIG {
        RRSIG {
            signature: Seq::from_vec(self.take_octets()),
            signer_name: self.take_name(),
            key_tag: self.take_short(),
            inception: self.take_long(),
            expiration: self.take_long(),
            original_ttl: self.take_long(),
            num_labels: self.take_octet(),
            algorithm: self.take_octet(),
            type_covered: self.take_type(),
        }
    }
}
