//! The data of an MX record, read and printed.
ghost use Rattle.std.specs.Prelude.{◌≡◌, Some, None, IfOk};
ghost use Rattle.line_text.specs.Errors.{OnBadText};
ghost use Rattle.line_text.specs.MailExchange.{mx_text, next_mx};

use crate::error::TextError;
use crate::names::read_name;
use crate::words::Words;
use std::alloc::Global;
use std::fmt;
use zone_proto::MX;

/// Reads the parts of an MX in the order of RFC 1035 section 3.3.9.
#[tactic(auto, using(crate::proofs::ReadingFacts::reading))]
pub(crate) fn read_mx(alloc: Global, words: &mut Words<'_>) -> Result<MX, TextError>
    ensures ok { IfOk result (λ d. next_mx words.old ≡ Some (d, words.new)) }
    ensures refusal { OnBadText result (next_mx words.old ≡ None) }
{
    Ok(MX {
        preference: words.take_u16()?,
        exchange: read_name(alloc, words)?,
    })
}

/// The parts of an MX, in the same order.
#[derive(Drop)]
pub(crate) struct MxText<'r>(pub &'r MX);

impl fmt::Display for MxText<'_> {
    ghost output = { λ d. Some (mx_text d.0.now) };

    fn fmt<W: fmt::Write>(&self, f: &mut fmt::Formatter<W>) -> fmt::Result {
        write!(f, "{} {}", self.0.preference, self.0.exchange)
    }
}
