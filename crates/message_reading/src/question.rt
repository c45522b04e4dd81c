//! Questions.
ghost use Rattle.std.specs.Prelude.{◌≡◌, IfOk, option_map};
ghost use Rattle.message_reading.specs.Messages.{question_of, question_fields};

use crate::names::name_of;
use crate::octets::{offset_of, short_of};
use std::alloc::Global;
use zone_proto::{DNSClass, Name, ProtoError, RecordType};

/// A question of a message (RFC 1035 section 4.1.2).
#[derive(Debug, Drop)]
pub struct Question {
    /// The name that is asked for, in the case in which it is there.
    pub name: Name,
    /// The type that is asked for.
    pub query_type: RecordType,
    /// The class that is asked for.
    pub query_class: DNSClass,
}

/// The question at the start of the last octets of a message (RFC 1035 section 4.1.2), and what follows it; none if it
/// doesn't end within the octets, or its name is none. Fails only for lack of memory.
#[tactic(auto, unfolding(crate::specs::Messages::question_of))]
pub fn question_of<'o>(
    alloc: Global,
    message: &'o [u8],
    octets: &'o [u8],
) -> Result<Option<(Question, &'o [u8])>, ProtoError>
    ensures { IfOk result (λ found. option_map (λ x. (x.0, x.1.now)) found
        ≡ question_of message.now octets.now) }
{
    let at = offset_of(message, octets);
    match name_of(alloc, message, at, octets)? {
        None => Ok(None),
        Some((name, rest)) => Ok(question_fields(name, rest)),
    }
}

/// The question of a name, and what follows it.
fn question_fields(name: Name, octets: &[u8]) -> Option<(Question, &[u8])>
    ensures { option_map (λ x. (x.0, x.1.now)) result ≡ question_fields name octets.now }
{
    let (query_type, rest) = short_of(octets)?;
    let (query_class, rest) = short_of(rest)?;
    let question = Question {
        name,
        query_type: RecordType(query_type),
        query_class: DNSClass(query_class),
    };
    Some((question, rest))
}
