//! The data of an SOA record, read and printed.
ghost use Rattle.std.specs.Prelude.{◌≡◌, Some, None, IfOk};
ghost use Rattle.line_text.specs.Errors.{OnBadText};
ghost use Rattle.line_text.specs.StartOfAuthority.{next_soa, soa_text};

use crate::error::TextError;
use crate::names::read_name;
use crate::words::Words;
use std::alloc::Global;
use std::fmt;
use zone_proto::SOA;

/// Reads the parts of an SOA in the order of RFC 1035 section 3.3.13.
#[tactic(auto, using(crate::proofs::ReadingFacts::reading))]
pub(crate) fn read_soa(alloc: Global, words: &mut Words<'_>) -> Result<SOA, TextError>
    ensures ok { IfOk result (λ d. next_soa words.old ≡ Some (d, words.new)) }
    ensures refusal { OnBadText result (next_soa words.old ≡ None) }
{
    Ok(SOA {
        mname: read_name(alloc, words)?,
        rname: read_name(alloc, words)?,
        serial: words.take_u32()?,
        refresh: words.take_timer()?,
        retry: words.take_timer()?,
        expire: words.take_timer()?,
        minimum: words.take_u32()?,
    })
}

/// The parts of an SOA, in the same order.
#[derive(Drop)]
pub(crate) struct SoaText<'r>(pub &'r SOA);

impl fmt::Display for SoaText<'_> {
    ghost output = { λ d. Some (soa_text d.0.now) };

    fn fmt<W: fmt::Write>(&self, f: &mut fmt::Formatter<W>) -> fmt::Result {
        let soa = self.0;
        write!(f, "{} {} {} ", soa.mname, soa.rname, soa.serial)?;
        write!(
            f,
            "{} {} {} {}",
            soa.refresh, soa.retry, soa.expire, soa.minimum
        )
    }
}
