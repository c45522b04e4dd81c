//! Messages behind their lengths (RFC 1035 section 4.2.2).
ghost use Rattle.std.specs.Prelude.{◌≡◌, ◌<◌, ◌++◌, OnOk, length, option_map};
ghost use Rattle.zone_server.specs.Frames.{frame_of, framed, framed_of, length_text, message_then, transport_by};

use crate::transport::Transport;
use message_reading::{octets_of, short_of};
use std::alloc::AllocError;

/// How messages are in a stream.
#[derive(Clone, Copy, PartialEq, Eq, Debug)]
pub enum Mode {
    /// As on TCP: each behind two octets of length.
    Stream,
    /// The same, and before the length of a query two octets of how long its answer may be by its way: a datagram of so
    /// many octets; or 65,535, where it came over TCP.
    Limits,
}

/// A message, and how it came.
#[derive(Clone, Copy)]
pub struct Frame<'o> {
    /// How it came, and so how long its answer may be.
    pub transport: Transport,
    /// Its octets, without their length.
    pub message: &'o [u8],
}

/// The frame at the start of octets, and what follows it; none if it isn't whole. Doesn't allocate.
pub fn frame_of(mode: Mode, octets: &[u8]) -> Option<(Frame<'_>, &[u8])>
    ensures { option_map (λ x. (framed_of x.0, x.1.now)) result ≡ frame_of mode octets.now }
{
    match mode {
        Mode::Stream => message_then(Transport::Tcp, octets),
        Mode::Limits => {
            let (limit, rest) = short_of(octets)?;
            message_then(transport_by(limit), rest)
        }
    }
}

/// A message behind its length, and what follows it; none if it isn't whole.
fn message_then(transport: Transport, octets: &[u8]) -> Option<(Frame<'_>, &[u8])>
    ensures { option_map (λ x. (framed_of x.0, x.1.now)) result
        ≡ message_then transport octets.now }
{
    let (count, rest) = short_of(octets)?;
    let (message, rest) = octets_of(usize::from(count), rest)?;
    Some((Frame { transport, message }, rest))
}

/// How a query came whose answer may have so many octets.
fn transport_by(limit: u16) -> Transport
    ensures { result ≡ transport_by limit }
{
    if limit == u16::MAX {
        Transport::Tcp
    } else {
        Transport::Udp { limit }
    }
}

/// Appends an answer behind its length; nothing if there is none. An answer has at most 65,535 octets.
pub(crate) fn push_framed(out: &mut Vec<u8>, answer: &[u8]) -> Result<(), AllocError>
    requires { length answer.now < 65536 }
    ensures { OnOk result (out.new.items ≡ out.old.items ++ framed answer.now) }
{
    if answer.is_empty() {
        return Ok(());
    }
    push_length(out, answer.len())?;
    out.extend_from_slice(answer)
}

/// Appends a length of two octets.
fn push_length(out: &mut Vec<u8>, length: usize) -> Result<(), AllocError>
    requires { length < 65536 }
    ensures { OnOk result (out.new.items ≡ out.old.items ++ length_text length) }
{
    out.push((length / 256) as u8)?;
    out.push((length % 256) as u8)?;
    Ok(())
}
