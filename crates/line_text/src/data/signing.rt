//! The data of DNSKEY and RRSIG records, printed.
ghost use Rattle.std.specs.Prelude.{Some};
ghost use Rattle.line_text.specs.Signing.{key_text, signature_text};

use crate::hex::HexText;
use std::fmt;
use zone_proto::{DNSKEY, RRSIG};

/// The parts of a DNSKEY.
#[derive(Drop)]
pub(crate) struct KeyText<'r>(pub &'r DNSKEY);

impl fmt::Display for KeyText<'_> {
    ghost output = { λ d. Some (key_text d.0.now) };

    fn fmt<W: fmt::Write>(&self, f: &mut fmt::Formatter<W>) -> fmt::Result {
        let key = self.0;
        let octets = HexText(key.public_key.as_slice());
        write!(
            f,
            "{} {} {} {octets}",
            key.flags, key.protocol, key.algorithm
        )
    }
}

/// The parts of an RRSIG.
#[derive(Drop)]
pub(crate) struct SignatureText<'r>(pub &'r RRSIG);

impl fmt::Display for SignatureText<'_> {
    ghost output = { λ d. Some (signature_text d.0.now) };

    fn fmt<W: fmt::Write>(&self, f: &mut fmt::Formatter<W>) -> fmt::Result {
        let rrsig = self.0;
        write!(
            f,
            "{} {} {} ",
            rrsig.type_covered, rrsig.algorithm, rrsig.num_labels
        )?;
        write!(
            f,
            "{} {} {} ",
            rrsig.original_ttl, rrsig.expiration, rrsig.inception
        )?;
        let signature = HexText(rrsig.signature.as_slice());
        write!(f, "{} {} {signature}", rrsig.key_tag, rrsig.signer_name)
    }
}
