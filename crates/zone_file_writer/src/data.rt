//! The data of a record, printed by their type.
ghost use Rattle.std.specs.Prelude.{◌∷◌, Some};
ghost use Rattle.zone_file_writer.specs.Printing.{master_data_text};

use crate::addresses::Ipv6Text;
use crate::denial::{Nsec3Text, NsecText};
use crate::other::OtherText;
use crate::signing::{KeyText, SignatureText};
use crate::start_of_authority::SoaText;
use line_text::DataText;
use std::alloc::Global;
use std::fmt;
use zone_proto::RData;

/// The data of a record in the form of a zone file, behind a space: in that of their type, as named-compilezone of BIND prints
/// them, but on one line: IPv6 addresses in their recommended form (RFC 5952), texts in quotes, moments as dates, keys, signatures
/// and digests in one piece. The data of a type that has no form of its own here, and those that aren't of the form of their type,
/// are `\#`, their length and hex digits (RFC 3597 section 5).
#[derive(Drop)]
pub(crate) struct MasterDataText<'r>(pub Global, pub &'r RData);

impl fmt::Display for MasterDataText<'_> {
    ghost output = { λ d. Some (32 ∷ master_data_text d.1.now) };

    fn fmt<W: fmt::Write>(&self, f: &mut fmt::Formatter<W>) -> fmt::Result {
        match self.1 {
            RData::AAAA(address) => write!(f, " {}", Ipv6Text(address)),
            RData::SOA(soa) => write!(f, " {}", SoaText(soa)),
            RData::DNSKEY(key) => write!(f, " {}", KeyText(key)),
            RData::RRSIG(rrsig) => write!(f, " {}", SignatureText(rrsig)),
            RData::NSEC(nsec) => write!(f, " {}", NsecText(nsec)),
            RData::NSEC3(nsec3) => write!(f, " {}", Nsec3Text(nsec3)),
            RData::Other(other) => write!(f, "{}", OtherText(self.0, other)),
            data => write!(f, " {}", DataText(data)),
        }
    }
}
