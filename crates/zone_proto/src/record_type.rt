//! Record types, by number and by word (RFC 1035 section 3.2.2, RFC 3597 section 5).
ghost use Rattle.std.specs.Prelude.{◌≡◌, Some, option_map};
ghost use Rattle.std.specs.Char.{is_ascii_digit};
ghost use Rattle.std.specs.List.{list_all};
ghost use Rattle.std.specs.Option.{option_copied};
ghost use Rattle.zone_proto.specs.Types.{has_own_case};
ghost use Rattle.zone_proto.specs.TypeText.{type_word, type_text, type_of_text, number_of, type_words, numbered_type, short_number};

use std::fmt;

/// A type of records, by its number (RFC 1035 section 3.2.2); ordered by number.
#[derive(Clone, Copy, PartialEq, Eq, PartialOrd, Ord, Hash, Debug)]
pub struct RecordType(pub u16);

/// The types that have a word, in the order of their numbers: each with its word, and with whether `RData` has a case of its own
/// for it.
const NAMED_TYPES: [(RecordType, &str, bool); 17] = [
    (RecordType::A, "A", true),
    (RecordType::NS, "NS", true),
    (RecordType::CNAME, "CNAME", true),
    (RecordType::SOA, "SOA", true),
    (RecordType::MX, "MX", true),
    (RecordType::TXT, "TXT", false),
    (RecordType::AAAA, "AAAA", true),
    (RecordType::SRV, "SRV", true),
    (RecordType::DS, "DS", false),
    (RecordType::RRSIG, "RRSIG", true),
    (RecordType::NSEC, "NSEC", true),
    (RecordType::DNSKEY, "DNSKEY", true),
    (RecordType::NSEC3, "NSEC3", true),
    (RecordType::NSEC3PARAM, "NSEC3PARAM", true),
    (RecordType::AXFR, "AXFR", false),
    (RecordType::ANY, "ANY", false),
    (RecordType::ANAME, "ANAME", true),
];

impl RecordType {
    /// An address of four octets (RFC 1035 section 3.4.1).
    pub const A: RecordType = RecordType(1);

    /// A name server (RFC 1035 section 3.3.11).
    pub const NS: RecordType = RecordType(2);

    /// The canonical name of an alias (RFC 1035 section 3.3.1).
    pub const CNAME: RecordType = RecordType(5);

    /// The start of a zone of authority (RFC 1035 section 3.3.13).
    pub const SOA: RecordType = RecordType(6);

    /// A mail exchange (RFC 1035 section 3.3.9).
    pub const MX: RecordType = RecordType(15);

    /// Texts (RFC 1035 section 3.3.14).
    pub const TXT: RecordType = RecordType(16);

    /// An address of sixteen octets (RFC 3596 section 2.1).
    pub const AAAA: RecordType = RecordType(28);

    /// A server of a service (RFC 2782).
    pub const SRV: RecordType = RecordType(33);

    /// Another name for all names below the owner (RFC 6672 section 2.1).
    pub const DNAME: RecordType = RecordType(39);

    /// The digest of a child zone's key (RFC 4034 section 5).
    pub const DS: RecordType = RecordType(43);

    /// A signature (RFC 4034 section 3).
    pub const RRSIG: RecordType = RecordType(46);

    /// A denial by names (RFC 4034 section 4).
    pub const NSEC: RecordType = RecordType(47);

    /// A public key (RFC 4034 section 2).
    pub const DNSKEY: RecordType = RecordType(48);

    /// A denial by hashed names (RFC 5155 section 3).
    pub const NSEC3: RecordType = RecordType(50);

    /// The parameters of the hashes (RFC 5155 section 4).
    pub const NSEC3PARAM: RecordType = RecordType(51);

    /// What a message brings beside its sections; no type of records (RFC 6891 section 6.1).
    pub const OPT: RecordType = RecordType(41);

    /// In a query: what has changed in a zone (RFC 1995).
    pub const IXFR: RecordType = RecordType(251);

    /// In a query: the whole zone (RFC 5936).
    pub const AXFR: RecordType = RecordType(252);

    /// In a query: any type (RFC 8482).
    pub const ANY: RecordType = RecordType(255);

    /// An alias for addresses alone; a number for private use (RFC 6895 section 3.1).
    pub const ANAME: RecordType = RecordType(65305);

    /// Whether `RData` has a case of its own for the type, so that its data are read part by part; those of any other
    /// type are mere octets (RFC 3597 section 3). Doesn't allocate.
    pub fn has_own_case(self) -> bool
        ensures { result ≡ has_own_case self.0 }
    {
        NAMED_TYPES.iter().any(|named| named.2 && self == named.0)
    }

    /// The type that a text names: a word of a type, as `AAAA`, or `TYPE` and a number of decimal digits up to 65535,
    /// as `TYPE28`, all in upper case; none for any other text. Doesn't allocate.
    pub fn from_text(text: &str) -> Option<RecordType>
        ensures { option_map (λ t. t.0) result ≡ type_of_text text.now }
    {
        match from_word(text) {
            Some(named) => Some(named),
            None => from_number(text),
        }
    }

    /// The word of the type, where it has one.
    fn word(self) -> Option<&'static str>
        ensures { option_copied result ≡ type_word self.0 }
    {
        let named = NAMED_TYPES.iter().find(|named| self == named.0)?;
        Some(named.1)
    }
}

/// The type that a word names.
fn from_word(text: &str) -> Option<RecordType>
    ensures { option_map (λ t. t.0) result ≡ number_of text.now type_words }
{
    let named = NAMED_TYPES.iter().find(|named| text == named.1)?;
    Some(named.0)
}

/// The type that `TYPE` and a number name.
fn from_number(text: &str) -> Option<RecordType>
    ensures { option_map (λ t. t.0) result ≡ numbered_type text.now }
{
    let digits = text.strip_prefix("TYPE")?;
    Some(RecordType(short_number(digits)?))
}

/// The value of decimal digits, at least one; none past 65535.
fn short_number(digits: &str) -> Option<u16>
    ensures { result ≡ short_number digits.now }
{
    if is_digits(digits) {
        digits.parse::<u16>().ok()
    } else {
        None
    }
}

fn is_digits(text: &str) -> bool
    ensures { result ≡ list_all is_ascii_digit text.now }
{
    text.bytes().all(|octet| octet.is_ascii_digit())
}

/// The word of the type, or `TYPE` and its number where it has none (RFC 3597 section 5).
impl fmt::Display for RecordType {
    ghost output = { λ t. Some (type_text t.0) };

    fn fmt<W: fmt::Write>(&self, f: &mut fmt::Formatter<W>) -> fmt::Result {
        if let Some(word) = self.word() {
            write!(f, "{word}")
        } else {
            let number = self.0;
            write!(f, "TYPE{number}")
        }
    }
}
