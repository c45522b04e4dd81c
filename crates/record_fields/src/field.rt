//! The fields that data are made of.

/// A field of data, behind which others may stand. It is written as one word where nothing else is said.
#[derive(Clone, Copy, PartialEq, Eq, Debug)]
pub enum Field {
    /// A number of 8 bits.
    Number8,
    /// A number of 16 bits.
    Number16,
    /// A number of 32 bits.
    Number32,
    /// An algorithm of DNSSEC, of 8 bits, by its number or mnemonic (RFC 4034 appendix A.1).
    Algorithm,
    /// The type of a digest, of 8 bits, by its number or mnemonic (RFC 4034 appendix A.2).
    DigestType,
    /// The type of a certificate, of 16 bits, by its number or mnemonic (RFC 4398 section 2.1).
    CertificateType,
    /// A type that records have, of 16 bits, by its word or number (RFC 9859 section 2.2).
    RecordType,
    /// A scheme of notifications, of 8 bits, by its number or mnemonic (RFC 9859 section 2.2).
    Scheme,
    /// An IPv4 address.
    Ipv4,
    /// A domain name, in full and without pointers.
    Name,
    /// A string, behind the count of its octets (RFC 1035 section 3.3).
    Text,
    /// The tag of a CAA (RFC 8659 section 4.1), behind the count of its octets.
    Tag,
    /// 64 bits, as four groups of hex digits with colons between them (RFC 6742).
    Groups,
    /// Six octets in hex, with hyphens between them (RFC 7043 section 3.2).
    Eui48,
    /// Eight octets in hex, with hyphens between them (RFC 7043 section 4.2).
    Eui64,
    /// A gateway, in three words: its type, the algorithm of the key behind it, and where it is (RFC 4025 section 2).
    Gateway,
    /// A relay, in three words: whether others are to be found, its type, and where it is (RFC 8777 section 4.2).
    Relay,
    /// The identity of a host, in three words: the algorithm of its key, its tag and its key (RFC 8005 section 5).
    Identity,
}

/// The fields of a type, in their order.
#[derive(Clone, Copy, PartialEq, Eq, Debug)]
pub enum Fields {
    NoField,
    One(Field),
    Two(Field, Field),
    Three(Field, Field, Field),
    Four(Field, Field, Field, Field),
    Five(Field, Field, Field, Field, Field),
    Six(Field, Field, Field, Field, Field, Field),
}

/// What stands behind the fields, to the end of the data.
#[derive(Clone, Copy, PartialEq, Eq, Debug)]
pub enum Ending {
    /// Nothing.
    Nothing,
    /// Strings, one or more.
    Texts,
    /// A string, or nothing.
    TextIfThere,
    /// Octets of any count, written as one string.
    Octets,
    /// One octet or more, written in hex.
    Hex,
    /// Octets, written in base64.
    Base64,
    /// Octets, written in base64, or nothing.
    Base64IfThere,
    /// Domain names, none or more.
    Names,
    /// Parameters of a service, none or more (RFC 9460 section 2).
    Parameters,
    /// Types of records, none or more, as a type bit map (RFC 4034 section 4.1.2).
    Types,
    /// A location of 16 octets (RFC 1876 section 2).
    Location,
    /// Address prefixes, none or more (RFC 3123 section 4).
    Prefixes,
    /// The address of an access point to a network's services, one octet or more, written in hex behind `0x` (RFC 1706 section 7).
    AccessPoint,
}

impl Fields {
    ghost use Rattle.std.specs.Prelude.{◌≡◌, ◌∷◌, [], MatchOption};
    ghost use Rattle.record_fields.specs.Rows.{fields_of};

    /// The first of the fields, and those behind it. None if there are none.
    pub fn split_first(self) -> Option<(Field, Fields)>
        ensures { MatchOption result (fields_of self ≡ [])
            (λ x. fields_of self ≡ x.0 ∷ fields_of x.1) }
    {
        match self {
            Fields::NoField => None,
            Fields::One(a) => Some((a, Fields::NoField)),
            Fields::Two(a, b) => Some((a, Fields::One(b))),
            Fields::Three(a, b, c) => Some((a, Fields::Two(b, c))),
            Fields::Four(a, b, c, d) => Some((a, Fields::Three(b, c, d))),
            Fields::Five(a, b, c, d, e) => Some((a, Fields::Four(b, c, d, e))),
            Fields::Six(a, b, c, d, e, f) => Some((a, Fields::Five(b, c, d, e, f))),
        }
    }
}
