//! A zone in messages one behind the other (RFC 5936 section 2.2).
ghost use Rattle.std.specs.Prelude.{◌≡◌, ◌⊎◌, ◌≤◌, ◌+◌, ◌++◌, ◌∷◌, [], IfErr, IfOk, OnErr, OnOk, drop, length, map, take};
ghost use Rattle.message_writing.specs.Fronts.{FirstHasNoRoom};
ghost use Rattle.message_writing.specs.Responses.{all_records, records_of};
ghost use Rattle.zone_server.specs.Serving.{Puts};
ghost use Rattle.zone_server.specs.Stopping.{BeginsSets, Stops};
ghost use Rattle.zone_server.specs.Transfers.{groups_sent, joined, one_by_one, AreBrokenOff, AreSentWhole};
ghost use Rattle.zone_server.specs.TransferSteps.{Halts, HasSent, HasSentFirst, HasSentSets, WritesMessage};

use crate::sending::send_code;
use crate::transfer_records::{between, push_singles, soa_alone};
use crate::transport::DATAGRAM_SIZE;
use crate::waiting::{Stop, put_answer};
use message_reading::Query;
use message_writing::{Group, Response as Message, WriteError, write_front};
use std::alloc::{AllocError, Global};
use std::io::Write;
use zone_map::SetMap;
use zone_proto::{RecordSet, ResponseCode};

/// How many sets wait at most to be put into a message. A message of 65,535 octets mostly has fewer.
const MOST_WAITING: usize = 4_096;

/// Why a transfer ends before its end.
#[derive(Drop)]
pub(crate) enum Halt {
    /// Frames can't be served any more.
    Stop(Stop),
    /// A record can't be sent.
    Unsendable,
}

/// Want of memory ends the serving of frames.
impl From<AllocError> for Halt {
    ghost use Rattle.zone_server.specs.declared.transfer_writer.Halt.TheVariants.{Stop as Stopped};
    ghost use Rattle.zone_server.specs.declared.waiting.Stop.TheVariants.{Memory};

    ghost from_gives = { λ _ e. e ≡ Stopped Memory };

    fn from(_: AllocError) -> Halt {
        Halt::Stop(Stop::Memory)
    }
}

/// What ends the serving of frames ends the transfer.
impl From<Stop> for Halt {
    ghost use Rattle.zone_server.specs.declared.transfer_writer.Halt.TheVariants.{Stop as Stopped};

    ghost from_gives = { λ stop e. e ≡ Stopped stop };

    fn from(stop: Stop) -> Halt {
        Halt::Stop(stop)
    }
}

/// Sends a zone with this SOA and these sets to the client that asks for it, message by message. Where a record can't be sent, a
/// message of `ServFail` ends the transfer. `out` is for a message.
pub(crate) fn send_zone<W: Write>(
    alloc: Global,
    query: &Query,
    soa: &RecordSet,
    sets: &SetMap,
    out: &mut Vec<u8>,
    answers: &mut Vec<u8>,
    output: &mut W,
) -> Result<(), Stop>
    ensures sent { OnOk result (Puts
        (λ text. AreSentWhole query.now (groups_sent soa.now sets.now) text
        ⊎ AreBrokenOff query.now (groups_sent soa.now sets.now) text)
        answers.old.items answers.new.items
        (W.contents output.old) (W.contents output.new)) }
    ensures stopped { OnErr result (Stops
        (BeginsSets query.now (groups_sent soa.now sets.now)) answers.old.items
        (W.contents output.old) (W.contents output.new)) }
{
    match send_sets(alloc, query, soa, sets, out, answers, output) {
        Ok(()) => Ok(()),
        Err(Halt::Stop(stop)) => Err(stop),
        Err(Halt::Unsendable) => {
            send_code(alloc, out, query, ResponseCode::ServFail, u16::MAX)?;
            put_answer(out.as_slice(), answers, output)
        }
    }
}

/// Sends the SOA, all sets, and the SOA again.
fn send_sets<W: Write>(
    alloc: Global,
    query: &Query,
    soa: &RecordSet,
    sets: &SetMap,
    out: &mut Vec<u8>,
    answers: &mut Vec<u8>,
    output: &mut W,
) -> Result<(), Halt>
    ensures sent { OnOk result (HasSentSets query.now (groups_sent soa.now sets.now)
        answers.old.items answers.new.items
        (W.contents output.old) (W.contents output.new)) }
    ensures halted { IfErr result (Halts query.now (joined (groups_sent soa.now sets.now))
        answers.old.items answers.new.items
        (W.contents output.old) (W.contents output.new)) }
{
    let mut waiting = Vec::new(alloc);
    add(
        alloc,
        query,
        soa_alone(soa),
        &mut waiting,
        out,
        answers,
        output,
    )?;
    for set in sets.values() {
        add(
            alloc,
            query,
            between(set),
            &mut waiting,
            out,
            answers,
            output,
        )?;
    }
    add(
        alloc,
        query,
        soa_alone(soa),
        &mut waiting,
        out,
        answers,
        output,
    )?;
    send_all(alloc, query, waiting.as_slice(), out, answers, output)
}

/// Puts a set behind those that wait, and sends the first of these where they are many.
fn add<'g, W: Write>(
    alloc: Global,
    query: &Query,
    group: Group<'g>,
    waiting: &mut Vec<Group<'g>>,
    out: &mut Vec<u8>,
    answers: &mut Vec<u8>,
    output: &mut W,
) -> Result<(), Halt>
    ensures sent { OnOk result (HasSentFirst query.now
        (map records_of waiting.old.items ++ records_of group.entry ∷ [])
        (map records_of waiting.new.items) answers.old.items answers.new.items
        (W.contents output.old) (W.contents output.new)) }
    ensures halted { IfErr result (Halts query.now
        (joined (map records_of waiting.old.items ++ records_of group.entry ∷ []))
        answers.old.items answers.new.items
        (W.contents output.old) (W.contents output.new)) }
{
    push(waiting, group)?;
    if waiting.len() < MOST_WAITING {
        return Ok(());
    }
    let count = send_first(alloc, query, waiting.as_slice(), out, answers, output)?;
    let left = Vec::from_slice(alloc, behind(waiting.as_slice(), count))?;
    *waiting = left;
    Ok(())
}

/// Puts a set behind those that wait.
fn push<'g>(waiting: &mut Vec<Group<'g>>, group: Group<'g>) -> Result<(), AllocError>
    ensures { OnOk result (waiting.new.items ≡ waiting.old.items ++ group.entry ∷ []) }
{
    waiting.push(group)?;
    Ok(())
}

/// The sets behind so many.
fn behind<'g, 'r>(groups: &'g [Group<'r>], count: usize) -> &'g [Group<'r>]
    requires { count ≤ length groups.now }
    ensures value { result.now ≡ drop count groups.now }
    ensures len { length result.now + count ≡ length groups.now }
{
    let (_, behind) = groups.split_at(count);
    behind
}

/// Sends all sets that wait.
fn send_all<W: Write>(
    alloc: Global,
    query: &Query,
    waiting: &[Group<'_>],
    out: &mut Vec<u8>,
    answers: &mut Vec<u8>,
    output: &mut W,
) -> Result<(), Halt>
    ensures sent { OnOk result (HasSentSets query.now (map records_of waiting.now)
        answers.old.items answers.new.items
        (W.contents output.old) (W.contents output.new)) }
    ensures halted { IfErr result (Halts query.now (joined (map records_of waiting.now))
        answers.old.items answers.new.items
        (W.contents output.old) (W.contents output.new)) }
{
    let mut left = waiting;
    while !left.is_empty() {
        let count = send_first(alloc, query, left, out, answers, output)?;
        left = behind(left, count);
    }
    Ok(())
}

/// Sends the first of the sets that wait, and gives how many: as many as one message has room for; or one, record by record, where
/// no message has room for it.
fn send_first<W: Write>(
    alloc: Global,
    query: &Query,
    waiting: &[Group<'_>],
    out: &mut Vec<u8>,
    answers: &mut Vec<u8>,
    output: &mut W,
) -> Result<usize, Halt>
    ensures at_most { IfOk result (λ count. count ≤ length waiting.now) }
    ensures some { IfOk result (λ count. count ≡ 0 → waiting.now ≡ []) }
    ensures sent { IfOk result (λ count. HasSentSets query.now
        (map records_of (take count waiting.now)) answers.old.items answers.new.items
        (W.contents output.old) (W.contents output.new)) }
    ensures halted { IfErr result (Halts query.now (joined (map records_of waiting.now))
        answers.old.items answers.new.items
        (W.contents output.old) (W.contents output.new)) }
{
    let count = send_message(alloc, query, waiting, out, answers, output)?;
    if count > 0 {
        return Ok(count);
    }
    match waiting {
        [] => Ok(0),
        [first, ..] => {
            send_one_by_one(alloc, query, first, out, answers, output)?;
            Ok(1)
        }
    }
}

/// Sends the records of a set each by itself, as many in a message as it has room for.
fn send_one_by_one<W: Write>(
    alloc: Global,
    query: &Query,
    group: &Group<'_>,
    out: &mut Vec<u8>,
    answers: &mut Vec<u8>,
    output: &mut W,
) -> Result<(), Halt>
    ensures sent { OnOk result (HasSent query.now (one_by_one (records_of group.now))
        answers.old.items answers.new.items
        (W.contents output.old) (W.contents output.new)) }
    ensures halted { IfErr result (Halts query.now (records_of group.now)
        answers.old.items answers.new.items
        (W.contents output.old) (W.contents output.new)) }
{
    let singles = one_by_one(alloc, group)?;
    let mut left = singles.as_slice();
    while !left.is_empty() {
        let count = send_message(alloc, query, left, out, answers, output)?;
        if count == 0 {
            return Err(Halt::Unsendable);
        }
        left = behind(left, count);
    }
    Ok(())
}

/// The records of a set, each by itself.
fn one_by_one<'g>(alloc: Global, group: &Group<'g>) -> Result<Vec<Group<'g>>, AllocError>
    ensures { IfOk result (λ singles. map records_of singles.items
        ≡ one_by_one (records_of group.now)) }
{
    let mut singles = Vec::new(alloc);
    push_singles(&mut singles, group.records, group.ttl)?;
    push_singles(&mut singles, group.signatures, group.ttl)?;
    Ok(singles)
}

/// Sends a message of as many of the first sets as it has room for, and gives how many; none is sent where it has room for none.
fn send_message<W: Write>(
    alloc: Global,
    query: &Query,
    groups: &[Group<'_>],
    out: &mut Vec<u8>,
    answers: &mut Vec<u8>,
    output: &mut W,
) -> Result<usize, Halt>
    ensures at_most { IfOk result (λ count. count ≤ length groups.now) }
    ensures none { IfOk result
        (λ count. count ≡ 0 → FirstHasNoRoom 65535 query.now [] groups.now) }
    ensures sent { IfOk result (λ count. HasSent query.now
        (map records_of (take count groups.now)) answers.old.items answers.new.items
        (W.contents output.old) (W.contents output.new)) }
    ensures halted { IfErr result (Halts query.now (all_records groups.now)
        answers.old.items answers.new.items
        (W.contents output.old) (W.contents output.new)) }
{
    match write_message(alloc, query, groups, out) {
        Ok(0) => Ok(0),
        Ok(count) => {
            put_answer(out.as_slice(), answers, output)?;
            Ok(count)
        }
        Err(WriteError::Memory) => Err(Halt::Stop(Stop::Memory)),
        Err(WriteError::Unwritable) => Err(Halt::Unsendable),
        // Its code has twelve bits, and header, question and OPT record find room.
        Err(WriteError::BadCode) => unreachable!(),
        Err(WriteError::NoRoom) => unreachable!(),
    }
}

/// Writes a message of as many of the first sets as it has room for, in place of the octets of `out`, and gives how many.
fn write_message(
    alloc: Global,
    query: &Query,
    groups: &[Group<'_>],
    out: &mut Vec<u8>,
) -> Result<usize, WriteError>
    ensures { WritesMessage query.now groups.now out.new.items result }
{
    let message = Message {
        query,
        authoritative: true,
        code: 0,
        size: DATAGRAM_SIZE,
        answers: groups,
        authorities: &[],
        glue: &[],
        additionals: &[],
    };
    write_front(alloc, out, &message, u16::MAX)
}
