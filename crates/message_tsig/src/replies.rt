//! Messages without records.
ghost use Rattle.std.specs.Prelude.{◌≡◌, ◌<◌, ◌≤◌, ◌++◌, IfOk, OnOk, length, take};
ghost use Rattle.message_tsig.specs.Replies.{asked, header_text, high_flags, low_flags, questions_text, refusal_text, truncated_flags, truncated_text};

use crate::octets::{behind, front, octet_at, short_at};
use crate::texts::push_short;
use message_reading::behind_questions;
use std::alloc::{AllocError, Global};

/// The questions of a message, how many they are and as they stand; none where they aren't whole.
fn asked(message: &[u8]) -> (u16, &[u8])
    ensures { (result.0, result.1.now) ≡ asked message.now }
{
    let count = short_at(message, 4);
    let octets = behind(message, 12);
    match behind_questions(count, octets) {
        None => (0, &[]),
        Some(rest) => (
            count,
            front(octets, octets.len().saturating_sub(rest.len())),
        ),
    }
}

/// Appends the counts of a header with these questions, and the questions.
fn push_questions(out: &mut Vec<u8>, count: u16, questions: &[u8]) -> Result<(), AllocError>
    ensures { OnOk result (out.new.items ≡ out.old.items ++ questions_text (count, questions.now)) }
{
    push_short(out, count)?;
    out.extend_from_slice(&[0, 0, 0, 0, 0, 0])?;
    out.extend_from_slice(questions)
}

/// QR, the opcode and RD of a request.
fn high_flags(request: &[u8]) -> u8
    ensures { result ≡ high_flags request.now }
{
    let high = octet_at(request, 2);
    128 + high / 8 % 16 * 8 + high % 2
}

/// Its CD, and a code.
fn low_flags(request: &[u8], code: u8) -> u8
    requires { code < 16 }
    ensures { result ≡ low_flags request.now code }
{
    octet_at(request, 3) / 16 % 2 * 16 + code
}

/// A response of a code, with the questions of the request.
#[tactic(auto, unfolding(crate::specs::Replies::refusal_text))]
pub(crate) fn refusal(alloc: Global, request: &[u8], code: u8) -> Result<Vec<u8>, AllocError>
    requires { code < 16 }
    ensures { IfOk result (λ text. text.items ≡ refusal_text request.now code) }
{
    let mut out = Vec::new(alloc);
    out.extend_from_slice(front(request, 2))?;
    out.push(high_flags(request))?;
    out.push(low_flags(request, code))?;
    let (count, questions) = asked(request);
    push_questions(&mut out, count, questions)?;
    Ok(out)
}

/// Appends the identifier of a response, and its flags with TC and without its code.
fn push_truncated(out: &mut Vec<u8>, response: &[u8]) -> Result<(), AllocError>
    ensures { OnOk result (out.new.items
        ≡ out.old.items ++ take 2 response.now ++ truncated_flags response.now) }
{
    let high = octet_at(response, 2);
    out.extend_from_slice(front(response, 2))?;
    out.push(high / 4 * 4 + 2 + high % 2)?;
    out.push(octet_at(response, 3) / 16 * 16)?;
    Ok(())
}

/// A response without its records: the questions alone.
#[tactic(auto, unfolding(crate::specs::Replies::truncated_text))]
pub(crate) fn truncated(alloc: Global, response: &[u8]) -> Result<Vec<u8>, AllocError>
    ensures { IfOk result (λ text. text.items ≡ truncated_text response.now) }
{
    let mut out = Vec::new(alloc);
    push_truncated(&mut out, response)?;
    let (count, questions) = asked(response);
    push_questions(&mut out, count, questions)?;
    Ok(out)
}

/// A response without its records and without its questions.
#[tactic(auto, using(crate::proofs::SignedLengths::length_of_header_alone), unfolding(crate::specs::Replies::header_text))]
pub(crate) fn header_alone(alloc: Global, response: &[u8]) -> Result<Vec<u8>, AllocError>
    ensures value { IfOk result (λ text. text.items ≡ header_text response.now) }
    ensures length { IfOk result (λ text. length text.items ≤ 12) }
{
    let mut out = Vec::new(alloc);
    push_truncated(&mut out, response)?;
    push_questions(&mut out, 0, &[])?;
    Ok(out)
}
