//! The data of DNSKEY and RRSIG records, printed.
ghost use Rattle.std.specs.Prelude.{Some};
ghost use Rattle.zone_file_writer.specs.Printing.{key_text, signature_text};

use crate::moments::MomentText;
use crate::octets::Base64Text;
use crate::types::TypeText;
use std::fmt;
use zone_proto::{DNSKEY, RRSIG};

/// The parts of a DNSKEY (RFC 4034 section 2.2).
#[derive(Drop)]
pub(crate) struct KeyText<'r>(pub &'r DNSKEY);

impl fmt::Display for KeyText<'_> {
    ghost output = { λ d. Some (key_text d.0.now) };

    fn fmt<W: fmt::Write>(&self, f: &mut fmt::Formatter<W>) -> fmt::Result {
        let key = self.0;
        let octets = Base64Text(key.public_key.as_slice());
        write!(
            f,
            "{} {} {} {octets}",
            key.flags, key.protocol, key.algorithm
        )
    }
}

/// The parts of an RRSIG (RFC 4034 section 3.2), its moments as dates.
#[derive(Drop)]
pub(crate) struct SignatureText<'r>(pub &'r RRSIG);

impl fmt::Display for SignatureText<'_> {
    ghost output = { λ d. Some (signature_text d.0.now) };

    fn fmt<W: fmt::Write>(&self, f: &mut fmt::Formatter<W>) -> fmt::Result {
        let rrsig = self.0;
        let covered = TypeText(rrsig.type_covered);
        write!(f, "{covered} {} {} ", rrsig.algorithm, rrsig.num_labels)?;
        let expiration = MomentText(rrsig.expiration);
        let inception = MomentText(rrsig.inception);
        write!(f, "{} {expiration} {inception} ", rrsig.original_ttl)?;
        let signature = Base64Text(rrsig.signature.as_slice());
        write!(f, "{} {} {signature}", rrsig.key_tag, rrsig.signer_name)
    }
}
