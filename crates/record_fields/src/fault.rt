//! What is wrong with a zone file, and where.
ghost use Rattle.std.specs.Prelude.{◌≡◌};

use service_parameters::ParameterFault;
use std::alloc::{AllocError, AllocFailed};
use thiserror::Error;
use zone_proto::ProtoError;
use zone_scanner::{EntryReason, Place};

/// What is wrong at a place of a zone file.
#[derive(Clone, Copy, PartialEq, Eq, Debug, Error)]
pub enum Reason {
    /// The text can't be cut into entries.
    #[error("{0}")]
    Entry(EntryReason),
    /// A further word is needed.
    #[error("a word is missing")]
    Missing,
    /// Words are left behind the data.
    #[error("a word too many")]
    Surplus,
    /// A word in quotes where none may stand.
    #[error("a word without quotes is needed here")]
    Quoted,
    /// No owner is given, and no record before gave one.
    #[error("no owner is given, and no record before has one")]
    NoOwner,
    /// No TTL is given, and nothing before gave one.
    #[error("no TTL is given, and nothing before has one")]
    NoTtl,
    /// No TTL is given, and the one that the data state is too long (RFC 2181 section 8).
    #[error("no TTL is given, and that of the data is more than 2147483647 seconds")]
    LongTtl,
    /// A word that isn't read as a name, for this cause.
    #[error("a name is needed here ({0})")]
    Name(ProtoError),
    /// A word that is no type, or one that records don't have.
    #[error("a type of records is needed here")]
    Type,
    /// A type whose data aren't read in a form of their own, and aren't written as `\#` either.
    #[error("data of this type are read as \\# and hex digits alone")]
    OnlyGeneric,
    /// Octets written as `\#` that aren't of the form of the type.
    #[error("these octets aren't data of this type")]
    Octets,
    /// The class isn't IN.
    #[error("the class has to be IN")]
    Class,
    /// A word that is no number from 0 to 255.
    #[error("a number from 0 to 255 is needed here")]
    Number8,
    /// A word that is no number from 0 to 65535.
    #[error("a number from 0 to 65535 is needed here")]
    Number16,
    /// A word that is no number from 0 to 4294967295.
    #[error("a number from 0 to 4294967295 is needed here")]
    Number32,
    /// A word that is no algorithm.
    #[error("an algorithm is needed here, by its number or mnemonic")]
    Algorithm,
    /// A word that is no type of a digest.
    #[error("a digest type is needed here, by its number or mnemonic")]
    DigestType,
    /// A word that is no type of a certificate.
    #[error("a certificate type is needed here, by its number or mnemonic")]
    CertificateType,
    /// A word that is no scheme of notifications.
    #[error("a scheme is needed here, by its number or mnemonic")]
    Scheme,
    /// A word that is no TTL.
    #[error("a TTL is needed here, of at most 2147483647 seconds, as 3600 or 1h30m")]
    Ttl,
    /// A word that is no timer of an SOA.
    #[error("a time is needed here, of at most 4294967295 seconds, as 3600 or 1h30m")]
    Timer,
    /// A word that is no IPv4 address.
    #[error("an IPv4 address takes four numbers with dots")]
    Ipv4,
    /// A word that is no IPv6 address.
    #[error("an IPv6 address takes eight groups of hex digits with colons, or fewer with ::")]
    Ipv6,
    /// A word that is no string of at most 255 octets.
    #[error("a string of at most 255 octets is needed here")]
    Text,
    /// A word that is no text with escapes.
    #[error("a text is needed here, with \\ before three digits up to 255 or before another octet")]
    Escapes,
    /// A word that is no tag of a CAA.
    #[error("a tag is needed here, of 1 to 255 letters and digits")]
    Tag,
    /// A word that isn't 64 bits in groups.
    #[error("four groups of hex digits with colons are needed here")]
    Groups,
    /// A word that isn't six octets with hyphens.
    #[error("six octets in hex with hyphens are needed here")]
    Eui48,
    /// A word that isn't eight octets with hyphens.
    #[error("eight octets in hex with hyphens are needed here")]
    Eui64,
    /// A word that isn't the dot of no gateway or relay.
    #[error("a dot is needed here, as the type says that there is no host")]
    NoHost,
    /// A type of a gateway or relay that has no meaning.
    #[error("the type of a gateway or relay is a number from 0 to 3")]
    HostType,
    /// A word that is neither 0 nor 1.
    #[error("0 or 1 is needed here")]
    Flag,
    /// A word that is no tag of a host.
    #[error("a host identity tag is needed here, of at most 255 octets in hex")]
    HostTag,
    /// A word that is no key of a host.
    #[error("a key is needed here, in base64")]
    HostKey,
    /// Words that aren't hex.
    #[error("hex digits are needed here, two for each octet")]
    Hex,
    /// Words behind a count of octets that aren't hex of so many.
    #[error("hex digits of so many octets have to follow here")]
    HexOctets,
    /// A word that is no salt.
    #[error("a salt is needed here, of at most 255 octets in hex, or - for none")]
    Salt,
    /// A word that is no hash.
    #[error("a hash is needed here, in base32hex without padding")]
    HashedOwner,
    /// Flags that have no meaning.
    #[error("the flags are 0, or 1 for opt-out")]
    Flags,
    /// Words that aren't base64.
    #[error("base64 is needed here")]
    Base64,
    /// A word that is no moment.
    #[error("a moment is needed here, as YYYYMMDDHHmmSS or in seconds")]
    Moment,
    /// A word that is no parameter of a service beside those before it, or parameters that lack another.
    #[error("{0}")]
    Parameter(ParameterFault),
    /// Words that aren't a location.
    #[error("a location is needed here, as 60 9 0.000 N 24 39 0.000 E 10.00m 20m 2000m 20m")]
    Location,
    /// A word that is no address prefix.
    #[error("an address prefix is needed here, as 1:192.0.2.0/24 or !2:2001:db8::/32")]
    Prefix,
    /// A word that is no address of an access point.
    #[error("0x and two hex digits for each octet are needed here")]
    AccessPoint,
    /// Data that are longer than a record can have.
    #[error("data of more than 65535 octets")]
    TooLong,
    /// An entry of `$INCLUDE`, which names another file.
    #[error("$INCLUDE isn't read here")]
    Include,
    /// A control entry that is none.
    #[error("a control entry is $ORIGIN, $TTL or $INCLUDE")]
    Control,
}

/// A fault and its place.
#[derive(Clone, Copy, PartialEq, Eq, Debug)]
pub struct Fault {
    /// That of the word at fault, or of the one before it if a word is missing.
    pub place: Place,
    /// What is wrong there.
    pub reason: Reason,
}

/// Why words aren't read.
#[derive(Clone, Copy, PartialEq, Eq, Debug)]
pub enum ReadError {
    /// A growth that the allocator refused.
    Memory,
    /// The first fault of the words.
    Fault(Fault),
}

/// Want of memory is `Memory`.
impl From<AllocError> for ReadError {
    ghost use Rattle.record_fields.specs.declared.fault.ReadError.TheVariants.{Memory};

    ghost from_gives = { λ _ e. e ≡ Memory };

    fn from(_: AllocError) -> ReadError {
        ReadError::Memory
    }
}

/// Want of memory is `Memory`; the value that found no room is dropped.
impl<T: Drop> From<AllocFailed<T>> for ReadError {
    ghost use Rattle.record_fields.specs.declared.fault.ReadError.TheVariants.{Memory};

    ghost from_gives = { λ _ e. e ≡ Memory };

    fn from(_: AllocFailed<T>) -> ReadError {
        ReadError::Memory
    }
}
