//! The answers of a message of a response.
ghost use Rattle.std.specs.Prelude.{◌≡◌};
ghost use Rattle.message_reading.specs.Messages.{message_of, parts_of};
ghost use Rattle.transfer_reading.specs.Answers.{answers_in, answers_of, asks, asks_authority, is_answer, is_asked, listed, Gives};

use crate::asked::{Asked, type_asked};
use crate::fault::AnswerFault;
use message_reading::{Header, Message, MessageError, Question, read_message};
use std::alloc::Global;
use zone_proto::{DNSClass, Record};
use zone_secondary::Question as ZoneQuestion;

/// The answers of the octets of a message, if it is one of the response to what was asked; of another than the first the question may be
/// missing.
pub(crate) fn answers_of(
    alloc: Global,
    asked: &Asked,
    is_first: bool,
    message: &[u8],
) -> Result<Vec<Record>, AnswerFault>
    ensures { Gives (listed result) (answers_of asked.now is_first (message_of message.now)) }
{
    match read_message(alloc, message) {
        Ok(read) => answers_in(asked, is_first, read),
        Err(MessageError::Malformed) => Err(AnswerFault::Malformed),
        Err(MessageError::Memory) => Err(AnswerFault::Memory),
    }
}

/// The answers of a message that was read.
fn answers_in(asked: &Asked, is_first: bool, message: Message) -> Result<Vec<Record>, AnswerFault>
    ensures { Gives (listed result) (answers_in asked.now is_first (parts_of message)) }
{
    let header = message.header;
    if !is_answer(asked, header) {
        return Err(AnswerFault::NotTheAnswer);
    }
    if header.response_code != 0 {
        return Err(AnswerFault::Code(header.response_code));
    }
    if !asks(asked, is_first, message.questions.as_slice()) {
        return Err(AnswerFault::OtherQuestion);
    }
    if !header.authoritative && asks_authority(asked.question) {
        return Err(AnswerFault::NotAuthoritative);
    }
    if header.truncated {
        return Err(AnswerFault::Truncated);
    }
    Ok(message.answers)
}

/// Whether a message of this header is of the response to what was asked.
fn is_answer(asked: &Asked, header: Header) -> bool
    ensures { result ≡ is_answer asked.now header }
{
    header.id == asked.id && header.is_response && header.opcode == 0
}

/// Whether a message has the question that was asked; another than the first may have none.
fn asks(asked: &Asked, is_first: bool, questions: &[Question]) -> bool
    ensures { result ≡ asks asked.now is_first questions.now }
{
    match questions {
        [] => !is_first,
        [question] => is_asked(asked, question),
        _ => false,
    }
}

/// Whether a question is the one that was asked, the case of letters aside.
fn is_asked(asked: &Asked, question: &Question) -> bool
    ensures { result ≡ is_asked asked.now question.now }
{
    question.name == asked.origin
        && question.query_type == type_asked(asked.question)
        && question.query_class == DNSClass::IN
}

/// Whether an authority is asked: for the SOA record. Where a zone is sent, AA isn't looked at (RFC 5936 section 2.2.1).
fn asks_authority(question: ZoneQuestion) -> bool
    ensures { result ≡ asks_authority question }
{
    match question {
        ZoneQuestion::Soa => true,
        ZoneQuestion::Changes(_) | ZoneQuestion::Zone => false,
    }
}
