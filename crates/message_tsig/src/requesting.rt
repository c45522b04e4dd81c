//! Requests signed (RFC 8945 section 5.1).
ghost use Rattle.std.specs.Prelude.{◌≡◌, ◌≤◌, ◌+◌, ◌-◌, IfOk, length};
ghost use Rattle.message_tsig.specs.Requests.{request_mac, request_stamp, signed_request};
ghost use Rattle.message_tsig.specs.Signing.{tsig_size};
ghost use Rattle.message_tsig.specs.Tsigs.{request_text};
ghost use Rattle.message_tsig.specs.Verdicts.{mac_under};

use crate::key::{Key, algorithm_name};
use crate::octets::{behind, short_at};
use crate::signing::{stamp, with_tsig};
use crate::texts::push_short;
use crate::tsig::Tsig;
use message_hmac::mac;
use std::alloc::Global;
use zone_proto::{Name, ProtoError, Seq};

/// A request that is signed.
#[derive(Drop)]
pub struct SignedRequest {
    /// The request with its TSIG.
    pub message: Vec<u8>,
    /// The MAC of the TSIG, with which a `ResponseChecker` begins.
    pub mac: Vec<u8>,
}

/// A request with its TSIG under a key, at a moment in seconds since 1970 (RFC 8945 section 5.1). The message has its header, and is without
/// a TSIG. `fudge` is how many seconds the clock of the server may be before or behind that of the client; section 10 recommends 300. The
/// TSIG has `tsig_size` octets. Refused for want of memory alone.
#[tactic(auto, using(crate::proofs::SignedLengths::length_of_request))]
pub fn sign_request(
    alloc: Global,
    key: &Key,
    now: u64,
    fudge: u16,
    message: &[u8],
) -> Result<SignedRequest, ProtoError>
    ensures message { IfOk result
        (λ signed. signed.message.items ≡ signed_request key.now now fudge message.now) }
    ensures mac { IfOk result
        (λ signed. signed.mac.items ≡ request_mac key.now now fudge message.now) }
    ensures length { IfOk result (λ signed. length signed.message.items
        ≤ 12 + (length message.now - 12) + tsig_size key.now) }
{
    let mut tsig = request_stamp(alloc, key, now, fudge, message)?;
    let code = request_mac(alloc, key, &tsig, message)?;
    tsig.mac = Seq::from_slice(alloc, code.as_slice())?;
    let text = with_tsig(alloc, message, &tsig)?;
    Ok(SignedRequest {
        message: text,
        mac: code,
    })
}

/// The TSIG of a request, without its MAC.
fn request_stamp(
    alloc: Global,
    key: &Key,
    now: u64,
    fudge: u16,
    message: &[u8],
) -> Result<Tsig, ProtoError>
    ensures { IfOk result (λ tsig. tsig ≡ request_stamp key.now now fudge message.now) }
{
    let name = Name::from(key.name.clone()?);
    let algorithm = algorithm_name(alloc, key.algorithm)?;
    let mut tsig = stamp(alloc, name, algorithm, short_at(message, 0), now, 0);
    tsig.fudge = fudge;
    Ok(tsig)
}

/// The MAC of a request, which is to have this TSIG.
fn request_mac(alloc: Global, key: &Key, tsig: &Tsig, message: &[u8]) -> Result<Vec<u8>, ProtoError>
    ensures { IfOk result (λ code. code.items
        ≡ mac_under key.now (request_text tsig.now message.now)) }
{
    let mut prefix = Vec::new(alloc);
    push_short(&mut prefix, tsig.original_id)?;
    let variables = tsig.variables()?;
    Ok(mac(
        alloc,
        key.algorithm,
        key.secret.as_slice(),
        prefix.as_slice(),
        behind(message, 2),
        variables.as_slice(),
    )?)
}
