//! The words of types, classes and algorithms in their registries.
ghost use Rattle.std.specs.Prelude.{◌≡◌, Some, None};
ghost use Rattle.zone_proto.specs.TypeText.{number_of};
ghost use Rattle.zone_tokens.specs.Types.{algorithm_words, certificate_type_words, class_words, digest_type_words, first_words, last_words, second_words, third_words};

/// The type up to 26 that a word names, but for those that `RecordType` reads.
pub(crate) fn first_type(text: &str) -> Option<u16>
    ensures { result ≡ number_of text.now first_words }
{
    match text {
        "MD" => Some(3),
        "MF" => Some(4),
        "MB" => Some(7),
        "MG" => Some(8),
        "MR" => Some(9),
        "NULL" => Some(10),
        "WKS" => Some(11),
        "PTR" => Some(12),
        "HINFO" => Some(13),
        "MINFO" => Some(14),
        "RP" => Some(17),
        "AFSDB" => Some(18),
        "X25" => Some(19),
        "ISDN" => Some(20),
        "RT" => Some(21),
        "NSAP" => Some(22),
        "NSAP-PTR" => Some(23),
        "SIG" => Some(24),
        "KEY" => Some(25),
        "PX" => Some(26),
        _ => None,
    }
}

/// The type from 27 to 55 that a word names, but for those.
pub(crate) fn second_type(text: &str) -> Option<u16>
    ensures { result ≡ number_of text.now second_words }
{
    match text {
        "GPOS" => Some(27),
        "LOC" => Some(29),
        "NXT" => Some(30),
        "EID" => Some(31),
        "NIMLOC" => Some(32),
        "ATMA" => Some(34),
        "NAPTR" => Some(35),
        "KX" => Some(36),
        "CERT" => Some(37),
        "A6" => Some(38),
        "DNAME" => Some(39),
        "SINK" => Some(40),
        "OPT" => Some(41),
        "APL" => Some(42),
        "SSHFP" => Some(44),
        "IPSECKEY" => Some(45),
        "DHCID" => Some(49),
        "TLSA" => Some(52),
        "SMIMEA" => Some(53),
        "HIP" => Some(55),
        _ => None,
    }
}

/// The type from 56 to 107 that a word names.
pub(crate) fn third_type(text: &str) -> Option<u16>
    ensures { result ≡ number_of text.now third_words }
{
    match text {
        "NINFO" => Some(56),
        "RKEY" => Some(57),
        "TALINK" => Some(58),
        "CDS" => Some(59),
        "CDNSKEY" => Some(60),
        "OPENPGPKEY" => Some(61),
        "CSYNC" => Some(62),
        "ZONEMD" => Some(63),
        "SVCB" => Some(64),
        "HTTPS" => Some(65),
        "DSYNC" => Some(66),
        "SPF" => Some(99),
        "UINFO" => Some(100),
        "UID" => Some(101),
        "GID" => Some(102),
        "UNSPEC" => Some(103),
        "NID" => Some(104),
        "L32" => Some(105),
        "L64" => Some(106),
        "LP" => Some(107),
        _ => None,
    }
}

/// The type from 108 on that a word names, but for those.
pub(crate) fn last_type(text: &str) -> Option<u16>
    ensures { result ≡ number_of text.now last_words }
{
    match text {
        "EUI48" => Some(108),
        "EUI64" => Some(109),
        "TKEY" => Some(249),
        "TSIG" => Some(250),
        "IXFR" => Some(251),
        "MAILB" => Some(253),
        "MAILA" => Some(254),
        "URI" => Some(256),
        "CAA" => Some(257),
        "AVC" => Some(258),
        "DOA" => Some(259),
        "AMTRELAY" => Some(260),
        "RESINFO" => Some(261),
        "WALLET" => Some(262),
        "CLA" => Some(263),
        "IPN" => Some(264),
        "TA" => Some(32768),
        "DLV" => Some(32769),
        _ => None,
    }
}

/// The class that a word names.
pub(crate) fn class(text: &str) -> Option<u16>
    ensures { result ≡ number_of text.now class_words }
{
    match text {
        "IN" => Some(1),
        "CH" => Some(3),
        "HS" => Some(4),
        "CLASS1" => Some(1),
        "CLASS3" => Some(3),
        "CLASS4" => Some(4),
        _ => None,
    }
}

/// The algorithm that a word names.
pub(crate) fn algorithm(text: &str) -> Option<u8>
    ensures { result ≡ number_of text.now algorithm_words }
{
    match text {
        "DELETE" => Some(0),
        "RSAMD5" => Some(1),
        "DH" => Some(2),
        "DSA" => Some(3),
        "RSASHA1" => Some(5),
        "DSA-NSEC3-SHA1" => Some(6),
        "RSASHA1-NSEC3-SHA1" => Some(7),
        "RSASHA256" => Some(8),
        "RSASHA512" => Some(10),
        "ECC-GOST" => Some(12),
        "ECDSAP256SHA256" => Some(13),
        "ECDSAP384SHA384" => Some(14),
        "ED25519" => Some(15),
        "ED448" => Some(16),
        "INDIRECT" => Some(252),
        "PRIVATEDNS" => Some(253),
        "PRIVATEOID" => Some(254),
        _ => None,
    }
}

/// The type of a digest that a word names.
pub(crate) fn digest_type(text: &str) -> Option<u8>
    ensures { result ≡ number_of text.now digest_type_words }
{
    match text {
        "SHA-1" => Some(1),
        "SHA1" => Some(1),
        "SHA-256" => Some(2),
        "SHA256" => Some(2),
        "GOST" => Some(3),
        "SHA-384" => Some(4),
        "SHA384" => Some(4),
        _ => None,
    }
}

/// The type of a certificate that a word names.
pub(crate) fn certificate_type(text: &str) -> Option<u16>
    ensures { result ≡ number_of text.now certificate_type_words }
{
    match text {
        "PKIX" => Some(1),
        "SPKI" => Some(2),
        "PGP" => Some(3),
        "IPKIX" => Some(4),
        "ISPKI" => Some(5),
        "IPGP" => Some(6),
        "ACPKIX" => Some(7),
        "IACPKIX" => Some(8),
        "URI" => Some(253),
        "OID" => Some(254),
        _ => None,
    }
}
