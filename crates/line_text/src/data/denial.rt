//! The data of NSEC, NSEC3 and NSEC3PARAM records, printed.
ghost use Rattle.std.specs.Prelude.{Some};
ghost use Rattle.line_text.specs.Denial.{nsec_text, nsec3_parameters_text, nsec3_text, types_text};

use crate::hex::HexText;
use std::fmt;
use zone_proto::{Base32Text, NSEC, NSEC3, NSEC3PARAM, RecordType};

/// The parts of an NSEC.
#[derive(Drop)]
pub(crate) struct NsecText<'r>(pub &'r NSEC);

impl fmt::Display for NsecText<'_> {
    ghost output = { λ d. Some (nsec_text d.0.now) };

    fn fmt<W: fmt::Write>(&self, f: &mut fmt::Formatter<W>) -> fmt::Result {
        let nsec = self.0;
        let types = TypesText(nsec.types.as_slice());
        write!(f, "{}{types}", nsec.next_domain_name)
    }
}

/// The parts of an NSEC3.
#[derive(Drop)]
pub(crate) struct Nsec3Text<'r>(pub &'r NSEC3);

impl fmt::Display for Nsec3Text<'_> {
    ghost output = { λ d. Some (nsec3_text d.0.now) };

    fn fmt<W: fmt::Write>(&self, f: &mut fmt::Formatter<W>) -> fmt::Result {
        let nsec3 = self.0;
        let opt_out = u8::from(nsec3.opt_out);
        write!(f, "{} {opt_out} {} ", nsec3.algorithm, nsec3.iterations)?;
        let salt = HexText(nsec3.salt.as_slice());
        let next = Base32Text(nsec3.next_hashed_owner_name.as_slice());
        let types = TypesText(nsec3.types.as_slice());
        write!(f, "{salt} {next}{types}")
    }
}

/// The parts of an NSEC3PARAM.
#[derive(Drop)]
pub(crate) struct Nsec3ParametersText<'r>(pub &'r NSEC3PARAM);

impl fmt::Display for Nsec3ParametersText<'_> {
    ghost output = { λ d. Some (nsec3_parameters_text d.0.now) };

    fn fmt<W: fmt::Write>(&self, f: &mut fmt::Formatter<W>) -> fmt::Result {
        let parameters = self.0;
        let opt_out = u8::from(parameters.opt_out);
        let salt = HexText(parameters.salt.as_slice());
        write!(
            f,
            "{} {opt_out} {} {salt}",
            parameters.algorithm, parameters.iterations
        )
    }
}

/// Types, each with a space before it.
#[derive(Drop)]
struct TypesText<'r>(&'r [RecordType]);

impl fmt::Display for TypesText<'_> {
    ghost output = { λ ts. Some (types_text ts.0.now) };

    fn fmt<W: fmt::Write>(&self, f: &mut fmt::Formatter<W>) -> fmt::Result {
        for record_type in self.0 {
            write!(f, " {record_type}")?;
        }
        Ok(())
    }
}
