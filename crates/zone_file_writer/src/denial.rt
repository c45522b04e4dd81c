//! The data of NSEC and NSEC3 records, printed.
ghost use Rattle.std.specs.Prelude.{Some};
ghost use Rattle.zone_file_writer.specs.Printing.{nsec3_text, nsec_text};

use crate::types::TypesText;
use line_text::HexText;
use std::fmt;
use zone_proto::{Base32Text, NSEC, NSEC3};

/// The parts of an NSEC (RFC 4034 section 4.2).
#[derive(Drop)]
pub(crate) struct NsecText<'r>(pub &'r NSEC);

impl fmt::Display for NsecText<'_> {
    ghost output = { λ d. Some (nsec_text d.0.now) };

    fn fmt<W: fmt::Write>(&self, f: &mut fmt::Formatter<W>) -> fmt::Result {
        let nsec = self.0;
        let types = TypesText(nsec.types.as_slice());
        write!(f, "{}{types}", nsec.next_domain_name)
    }
}

/// The parts of an NSEC3 (RFC 5155 section 3.3).
#[derive(Drop)]
pub(crate) struct Nsec3Text<'r>(pub &'r NSEC3);

impl fmt::Display for Nsec3Text<'_> {
    ghost output = { λ d. Some (nsec3_text d.0.now) };

    fn fmt<W: fmt::Write>(&self, f: &mut fmt::Formatter<W>) -> fmt::Result {
        let nsec3 = self.0;
        let opt_out = u8::from(nsec3.opt_out);
        write!(f, "{} {opt_out} {} ", nsec3.algorithm, nsec3.iterations)?;
        let salt = HexText(nsec3.salt.as_slice());
        let next = Base32Text(nsec3.next_hashed_owner_name.as_slice());
        let types = TypesText(nsec3.types.as_slice());
        write!(f, "{salt} {next}{types}")
    }
}
