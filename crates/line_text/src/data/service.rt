//! The data of an SRV record, read and printed.
ghost use Rattle.std.specs.Prelude.{◌≡◌, Some, None, IfOk};
ghost use Rattle.line_text.specs.Errors.{OnBadText};
ghost use Rattle.line_text.specs.Service.{next_srv, srv_text};

use crate::error::TextError;
use crate::names::read_name;
use crate::words::Words;
use std::alloc::Global;
use std::fmt;
use zone_proto::SRV;

/// Reads the parts of an SRV in the order of RFC 2782.
#[tactic(auto, using(crate::proofs::ReadingFacts::reading))]
pub(crate) fn read_srv(alloc: Global, words: &mut Words<'_>) -> Result<SRV, TextError>
    ensures ok { IfOk result (λ d. next_srv words.old ≡ Some (d, words.new)) }
    ensures refusal { OnBadText result (next_srv words.old ≡ None) }
{
    Ok(SRV {
        priority: words.take_u16()?,
        weight: words.take_u16()?,
        port: words.take_u16()?,
        target: read_name(alloc, words)?,
    })
}

/// The parts of an SRV, in the same order.
#[derive(Drop)]
pub(crate) struct SrvText<'r>(pub &'r SRV);

impl fmt::Display for SrvText<'_> {
    ghost output = { λ d. Some (srv_text d.0.now) };

    fn fmt<W: fmt::Write>(&self, f: &mut fmt::Formatter<W>) -> fmt::Result {
        let srv = self.0;
        write!(
            f,
            "{} {} {} {}",
            srv.priority, srv.weight, srv.port, srv.target
        )
    }
}
