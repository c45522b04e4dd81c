//! The table of types: what the data of each are made of.
ghost use Rattle.std.specs.Prelude.{◌≡◌, option_copied};
ghost use Rattle.record_fields.specs.Rows.{row_of};

use crate::field::{Ending, Field, Fields};
use Ending::{
    AccessPoint, Base64, Base64IfThere, Hex, Location, Names, Nothing, Octets, Parameters,
    Prefixes, TextIfThere, Texts, Types,
};
use Field::{
    Algorithm, CertificateType, DigestType, Eui48, Eui64, Gateway, Groups, Identity, Ipv4, Name,
    Number8, Number16, Number32, RecordType, Relay, Scheme, Tag, Text,
};
use Fields::{Four, NoField, One, Six, Three, Two};

/// A row of the table: the number of a type, the fields of its data, and what stands behind them.
#[derive(Clone, Copy, PartialEq, Eq, Debug)]
pub struct Row(pub u16, pub Fields, pub Ending);

/// The types whose data are read and printed field by field, by their numbers. The data of any other type are parts of `RData`, or
/// are read as `\#` alone.
pub const ROWS: [Row; 61] = [
    // MD, MF, MB, MG, MR, PTR (RFC 1035 section 3.3), NSAP-PTR (RFC 1348), DNAME (RFC 6672 section 2.1)
    Row(3, One(Name), Nothing),
    Row(4, One(Name), Nothing),
    Row(7, One(Name), Nothing),
    Row(8, One(Name), Nothing),
    Row(9, One(Name), Nothing),
    Row(12, One(Name), Nothing),
    Row(23, One(Name), Nothing),
    Row(39, One(Name), Nothing),
    // MINFO (RFC 1035 section 3.3.7), RP (RFC 1183 section 2.2), TALINK
    Row(14, Two(Name, Name), Nothing),
    Row(17, Two(Name, Name), Nothing),
    Row(58, Two(Name, Name), Nothing),
    // AFSDB, RT (RFC 1183 sections 1 and 3.3), KX (RFC 2230 section 3.1), LP (RFC 6742 section 2.4), PX (RFC 2163 section 4)
    Row(18, Two(Number16, Name), Nothing),
    Row(21, Two(Number16, Name), Nothing),
    Row(36, Two(Number16, Name), Nothing),
    Row(107, Two(Number16, Name), Nothing),
    Row(26, Three(Number16, Name, Name), Nothing),
    // NAPTR (RFC 3403 section 4.1)
    Row(35, Six(Number16, Number16, Text, Text, Text, Name), Nothing),
    // HINFO (RFC 1035 section 3.3.2), X25, ISDN (RFC 1183 sections 3.1 and 3.2), GPOS (RFC 1712 section 3)
    Row(13, Two(Text, Text), Nothing),
    Row(19, One(Text), Nothing),
    Row(20, One(Text), TextIfThere),
    Row(27, Three(Text, Text, Text), Nothing),
    // TXT (RFC 1035 section 3.3.14), NINFO, SPF (RFC 4408 section 3.1.1), AVC, RESINFO (RFC 9606), WALLET
    Row(16, NoField, Texts),
    Row(56, NoField, Texts),
    Row(99, NoField, Texts),
    Row(258, NoField, Texts),
    Row(261, NoField, Texts),
    Row(262, NoField, Texts),
    // URI (RFC 7553 section 4.5), CAA (RFC 8659 section 4.1)
    Row(256, Two(Number16, Number16), Octets),
    Row(257, Two(Number8, Tag), Octets),
    // NID, L32, L64 (RFC 6742 sections 2.1 to 2.3), EUI48, EUI64 (RFC 7043)
    Row(104, Two(Number16, Groups), Nothing),
    Row(105, Two(Number16, Ipv4), Nothing),
    Row(106, Two(Number16, Groups), Nothing),
    Row(108, One(Eui48), Nothing),
    Row(109, One(Eui64), Nothing),
    // DS (RFC 4034 section 5.1), CDS (RFC 7344 section 3.1), TA, DLV (RFC 4431 section 2)
    Row(43, Three(Number16, Algorithm, DigestType), Hex),
    Row(59, Three(Number16, Algorithm, DigestType), Hex),
    Row(32768, Three(Number16, Algorithm, DigestType), Hex),
    Row(32769, Three(Number16, Algorithm, DigestType), Hex),
    // CDNSKEY (RFC 7344 section 3.2), RKEY, KEY (RFC 2535 section 3.1), whose key may be missing
    Row(60, Three(Number16, Number8, Algorithm), Base64),
    Row(57, Three(Number16, Number8, Algorithm), Base64),
    Row(25, Three(Number16, Number8, Algorithm), Base64IfThere),
    // SSHFP (RFC 4255 section 3.1), TLSA (RFC 6698 section 2.1), SMIMEA (RFC 8162 section 2), ZONEMD (RFC 8976 section 2.2)
    Row(44, Two(Number8, Number8), Hex),
    Row(52, Three(Number8, Number8, Number8), Hex),
    Row(53, Three(Number8, Number8, Number8), Hex),
    Row(63, Three(Number32, Number8, Number8), Hex),
    // CERT (RFC 4398 section 2), DHCID (RFC 4701 section 3.1), OPENPGPKEY (RFC 7929 section 2.1)
    Row(37, Three(CertificateType, Number16, Algorithm), Base64),
    Row(49, NoField, Base64),
    Row(61, NoField, Base64),
    // IPSECKEY (RFC 4025 section 2.1), AMTRELAY (RFC 8777 section 4.2), HIP (RFC 8005 section 5)
    Row(45, Two(Number8, Gateway), Base64IfThere),
    Row(260, Two(Number8, Relay), Nothing),
    Row(55, One(Identity), Names),
    // LOC (RFC 1876 section 2)
    Row(29, NoField, Location),
    // CSYNC (RFC 7477 section 2.1)
    Row(62, Two(Number32, Number16), Types),
    // EID, NIMLOC, SINK
    Row(31, NoField, Hex),
    Row(32, NoField, Hex),
    Row(40, Three(Number8, Number8, Number8), Base64IfThere),
    // SVCB, HTTPS (RFC 9460 section 2.2)
    Row(64, Two(Number16, Name), Parameters),
    Row(65, Two(Number16, Name), Parameters),
    // DSYNC (RFC 9859 section 2)
    Row(66, Four(RecordType, Scheme, Number16, Name), Nothing),
    // APL (RFC 3123 section 4), NSAP (RFC 1706 section 5)
    Row(42, NoField, Prefixes),
    Row(22, NoField, AccessPoint),
];

/// The row of a type, by its number; none if it has none. Takes no memory.
pub fn row_of(record_type: u16) -> Option<&'static Row>
    ensures { option_copied result ≡ row_of record_type }
{
    ROWS.iter().find(|row| row.0 == record_type)
}
