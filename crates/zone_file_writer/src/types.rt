//! Types, printed.
ghost use Rattle.std.specs.Prelude.{◌≡◌, Some, None, option_map};
ghost use Rattle.std.specs.Option.{option_copied};
ghost use Rattle.zone_proto.specs.TypeText.{word_of};
ghost use Rattle.zone_file_writer.specs.Words.{further_words, type_word, types_text};

use std::fmt;
use zone_proto::RecordType;

/// A type by its word, if it is read in a form of its own; and else as `RecordType` prints it: by its word, or as `TYPE` and its
/// number (RFC 3597 section 5), which other programs read whatever types they know.
#[derive(Drop)]
pub(crate) struct TypeText(pub RecordType);

impl fmt::Display for TypeText {
    ghost output = { λ t. Some (type_word t.0.0) };

    fn fmt<W: fmt::Write>(&self, f: &mut fmt::Formatter<W>) -> fmt::Result {
        match further_word(self.0) {
            Some(word) => write!(f, "{word}"),
            None => write!(f, "{}", self.0),
        }
    }
}

/// The words of the types that have a row in the table of `record_fields`, where `RecordType` has none.
const FURTHER_WORDS: [(u16, &str); 59] = [
    (3, "MD"),
    (4, "MF"),
    (7, "MB"),
    (8, "MG"),
    (9, "MR"),
    (12, "PTR"),
    (13, "HINFO"),
    (14, "MINFO"),
    (17, "RP"),
    (18, "AFSDB"),
    (19, "X25"),
    (20, "ISDN"),
    (21, "RT"),
    (22, "NSAP"),
    (23, "NSAP-PTR"),
    (25, "KEY"),
    (26, "PX"),
    (27, "GPOS"),
    (29, "LOC"),
    (31, "EID"),
    (32, "NIMLOC"),
    (35, "NAPTR"),
    (36, "KX"),
    (37, "CERT"),
    (39, "DNAME"),
    (40, "SINK"),
    (42, "APL"),
    (44, "SSHFP"),
    (45, "IPSECKEY"),
    (49, "DHCID"),
    (52, "TLSA"),
    (53, "SMIMEA"),
    (55, "HIP"),
    (56, "NINFO"),
    (57, "RKEY"),
    (58, "TALINK"),
    (59, "CDS"),
    (60, "CDNSKEY"),
    (61, "OPENPGPKEY"),
    (62, "CSYNC"),
    (63, "ZONEMD"),
    (64, "SVCB"),
    (65, "HTTPS"),
    (66, "DSYNC"),
    (99, "SPF"),
    (104, "NID"),
    (105, "L32"),
    (106, "L64"),
    (107, "LP"),
    (108, "EUI48"),
    (109, "EUI64"),
    (256, "URI"),
    (257, "CAA"),
    (258, "AVC"),
    (260, "AMTRELAY"),
    (261, "RESINFO"),
    (262, "WALLET"),
    (32768, "TA"),
    (32769, "DLV"),
];

/// The word of a type that has a row in the table of `record_fields`, where `RecordType` has none.
fn further_word(record_type: RecordType) -> Option<&'static str>
    ensures { option_copied result ≡ word_of record_type.0 further_words }
{
    let named = FURTHER_WORDS.iter().find(|named| record_type.0 == named.0)?;
    Some(named.1)
}

/// Types, each with a space before it.
#[derive(Drop)]
pub(crate) struct TypesText<'r>(pub &'r [RecordType]);

impl fmt::Display for TypesText<'_> {
    ghost output = { λ ts. Some (types_text ts.0.now) };

    fn fmt<W: fmt::Write>(&self, f: &mut fmt::Formatter<W>) -> fmt::Result {
        for record_type in self.0 {
            write!(f, " {}", TypeText(*record_type))?;
        }
        Ok(())
    }
}
