//! Responses that go on in further messages, as that to a query for a whole zone does (RFC 5936 section 2.2).
ghost use Rattle.std.specs.Prelude.{◌≡◌, ◌≢◌, ◌≤◌, ◌<◌, IfErr, IfOk, OnOk, length};
ghost use Rattle.message_writing.specs.Fronts.{IsFront, IsFrontPut, WritesFront};
ghost use Rattle.message_writing.specs.KnownNames.{IsAskedAt};
ghost use Rattle.message_writing.specs.Outcomes.{FailsToPutAny, FailsToWrite};
ghost use Rattle.message_writing.specs.Responses.{all_records};

use crate::error::WriteError;
use crate::group_writer::{Setting, count_of, write_group};
use crate::hints::Hints;
use crate::message_parts::{
    Counts, GREATEST_CODE, OPT_OCTETS, opt_count, push_opt, push_question, put_header,
};
use crate::name_writer::wire_length;
use crate::response::{Group, Response};
use std::alloc::Global;

/// Writes the first answers of a response as a message of so many octets at most, in place of the octets of `out`, and gives how many
/// groups of answers it has. The others are for further messages, so TC is clear.
///
/// Header, question, the answers, and last an OPT record if and only if the query has one; no other section is written. A group of
/// records is written whole or not at all, up to the first that goes over the limit. None is written where the first one goes over.
///
/// Names are compressed as [`write_response`](crate::write_response) does.
///
/// # Errors
///
/// As of `write_response`: `BadCode`, `NoRoom`, `Unwritable`, `Memory`. The octets of `out` are gone then.
pub fn write_front(
    alloc: Global,
    out: &mut Vec<u8>,
    response: &Response<'_, '_>,
    limit: u16,
) -> Result<usize, WriteError>
    ensures written { WritesFront limit response.now out.new.items result }
    ensures room { 282 ≤ limit → IfErr result (λ e. e ≢ WriteError.NoRoom) }
{
    match compose_front(alloc, out, response, usize::from(limit)) {
        Ok(count) => Ok(count),
        Err(error) => {
            out.clear();
            Err(error)
        }
    }
}

/// The first groups of some: how many they are, and how many records they have.
#[derive(Clone, Copy, PartialEq, Eq, Debug)]
pub(crate) struct Front {
    pub(crate) groups: usize,
    pub(crate) records: usize,
}

/// Appends groups, each whole, up to the first that goes over.
fn write_groups(
    out: &mut Vec<u8>,
    setting: &Setting<'_>,
    groups: &[Group<'_>],
) -> Result<Front, WriteError>
    requires room { length out.old.items ≤ setting.now.room }
    requires asked { IsAskedAt out.old.items setting.now.asked }
    ensures ok { IfOk result
        (IsFrontPut setting.now.room out.old.items out.new.items groups.now) }
    ensures within { IfOk result (λ front. length out.new.items ≤ setting.now.room) }
    ensures err { IfErr result (FailsToPutAny (all_records groups.now)) }
{
    let mut hints = Hints::new(setting.alloc);
    let mut count = 0usize;
    let mut records = 0usize;
    for group in groups {
        if !write_group(out, &mut hints, setting, group)? {
            return Ok(Front {
                groups: count,
                records,
            });
        }
        count += 1;
        records += count_of(group);
    }
    Ok(Front {
        groups: count,
        records,
    })
}

/// The message, or octets that are to be given up.
fn compose_front(
    alloc: Global,
    out: &mut Vec<u8>,
    response: &Response<'_, '_>,
    limit: usize,
) -> Result<usize, WriteError>
    requires { limit < 65536 }
    ensures ok { IfOk result (λ count. IsFront limit response.now count out.new.items) }
    ensures code { OnOk result (response.now.code ≤ 4095) }
    ensures err { IfErr result (FailsToWrite limit response.now) }
    ensures room { 282 ≤ limit → IfErr result (λ e. e ≢ WriteError.NoRoom) }
{
    out.clear();
    if response.code > GREATEST_CODE {
        return Err(WriteError::BadCode);
    }
    let question = &response.query.question;
    let opts = opt_count(response);
    let name = wire_length(question.name.labels());
    let least = 12 + (name + 4) + OPT_OCTETS * opts;
    if limit < least {
        return Err(WriteError::NoRoom);
    }
    let setting = Setting {
        alloc,
        asked: None,
        room: limit - OPT_OCTETS * opts,
    };
    out.extend_from_slice(&[0; 12])?;
    push_question(out, question)?;
    let front = write_groups(out, &setting, response.answers)?;
    push_opt(out, response)?;
    let counts = Counts {
        answers: front.records,
        authorities: 0,
        additionals: opts,
        truncated: false,
    };
    put_header(out, response, counts);
    Ok(front.groups)
}
