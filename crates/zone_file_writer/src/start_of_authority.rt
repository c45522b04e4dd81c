//! The data of SOA records, printed.
ghost use Rattle.std.specs.Prelude.{Some};
ghost use Rattle.zone_file_writer.specs.Printing.{soa_text, timer_text};

use std::fmt;
use zone_proto::SOA;

/// The parts of an SOA (RFC 1035 section 3.3.13), its timers as numbers of 32 bits without a sign.
#[derive(Drop)]
pub(crate) struct SoaText<'r>(pub &'r SOA);

impl fmt::Display for SoaText<'_> {
    ghost output = { λ d. Some (soa_text d.0.now) };

    fn fmt<W: fmt::Write>(&self, f: &mut fmt::Formatter<W>) -> fmt::Result {
        let soa = self.0;
        write!(f, "{} {} {} ", soa.mname, soa.rname, soa.serial)?;
        let (refresh, retry) = (TimerText(soa.refresh), TimerText(soa.retry));
        let expire = TimerText(soa.expire);
        write!(f, "{refresh} {retry} {expire} {}", soa.minimum)
    }
}

/// A timer, as a number without a sign.
#[derive(Drop)]
struct TimerText(i32);

impl fmt::Display for TimerText {
    ghost output = { λ t. Some (timer_text t.0) };

    fn fmt<W: fmt::Write>(&self, f: &mut fmt::Formatter<W>) -> fmt::Result {
        let timer = self.0.cast_unsigned();
        write!(f, "{timer}")
    }
}
