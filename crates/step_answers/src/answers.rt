//! All messages of an answer.
ghost use Rattle.std.specs.Prelude.{◌≤◌, IfOk};
ghost use Rattle.difference_messages.specs.Messages.{answer_of};
ghost use Rattle.step_answers.specs.Answers.{texts_of, GivesMessages, PutsNext, WritesAll};

use difference_messages::{DifferenceAnswer, DifferenceFault, difference_groups, write_next};
use message_reading::Query;
use shown_zones::ZoneStep;
use std::alloc::{AllocError, Global};
use zone_proto::RecordSet;

/// The messages of steps as the answer to a query for the changes of a zone, between two SOA records of the newest version (RFC 1995 section 4).
/// `size` is how many octets the server takes in one datagram, for the OPT record, and `limit` how many a message may have, which is 282 at
/// least: the header, a question, and the OPT record have room.
///
/// None where a record of the steps can't be sent, since no octets are its data, or no message has room for it: then the whole zone has to
/// go out. Fails only for lack of memory.
#[tactic(auto, using(crate::proofs::Whole::gives_all, crate::proofs::Whole::gives_none))]
pub fn step_messages(
    alloc: Global,
    query: &Query,
    soa: &RecordSet,
    steps: &[ZoneStep],
    size: u16,
    limit: u16,
) -> Result<Option<Vec<Vec<u8>>>, AllocError>
    requires { 282 ≤ limit }
    ensures { IfOk result (GivesMessages query.now soa.now steps.now size limit) }
{
    let groups = difference_groups(alloc, soa, steps)?;
    let answer = DifferenceAnswer {
        query,
        groups: groups.as_slice(),
        size,
        limit,
    };
    match all_messages(alloc, &answer) {
        Ok(texts) => Ok(Some(texts)),
        Err(DifferenceFault::Unsendable) => Ok(None),
        Err(DifferenceFault::Memory) => Err(AllocError),
    }
}

/// Writes all messages of an answer.
#[tactic(auto, using(crate::proofs::Whole::begun_with_none, crate::proofs::Whole::begun_with_next, crate::proofs::Whole::begun_is_whole))]
fn all_messages(
    alloc: Global,
    answer: &DifferenceAnswer<'_>,
) -> Result<Vec<Vec<u8>>, DifferenceFault>
    requires { 282 ≤ answer.now.limit }
    ensures { WritesAll (answer_of answer.now) result }
{
    let mut texts = Vec::new(alloc);
    let mut sent = 0;
    'message: loop {
        match put_next(alloc, answer, sent, &mut texts) {
            Ok(Some(next)) => sent = next,
            Ok(None) => return Ok(texts),
            Err(fault) => return Err(fault),
        }
    }
}

/// Writes the next message behind others, and gives how many groups are sent with it; none where all are sent.
#[tactic(auto, using(crate::proofs::Whole::puts_one))]
fn put_next(
    alloc: Global,
    answer: &DifferenceAnswer<'_>,
    sent: usize,
    texts: &mut Vec<Vec<u8>>,
) -> Result<Option<usize>, DifferenceFault>
    requires { 282 ≤ answer.now.limit }
    ensures { PutsNext (answer_of answer.now) sent (texts_of texts.old.items)
        (texts_of texts.new.items) result }
{
    let mut text = Vec::new(alloc);
    match write_next(alloc, answer, sent, &mut text) {
        Ok(Some(next)) => match texts.push(text) {
            Ok(()) => Ok(Some(next)),
            Err(_) => Err(DifferenceFault::Memory),
        },
        Ok(None) => Ok(None),
        Err(fault) => Err(fault),
    }
}
