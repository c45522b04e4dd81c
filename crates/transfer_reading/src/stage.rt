//! How far an answer has come.
ghost use Rattle.std.specs.Prelude.{◌≡◌};
ghost use Rattle.transfer_reading.specs.Answers.{Gives};
ghost use Rattle.transfer_reading.specs.Stages.{behind_all, behind_difference, behind_first, behind_other, behind_record, behind_second, behind_soa, behind_zone, serial_at};
ghost use Rattle.zone_proto.specs.Names.{is_at_or_above, lower};

use crate::asked::Asked;
use crate::fault::AnswerFault;
use zone_proto::{DNSClass, Name, Record, is_newer, soa_serial};
use zone_secondary::Question;

/// How far an answer has come, record by record (RFC 5936 section 2.2, RFC 1995 section 4).
#[derive(Clone, Copy, PartialEq, Eq, Debug)]
pub enum Stage {
    /// No record came.
    Before,
    /// The SOA record came with which each answer begins, and nothing behind it. Its serial is that of the version that the primary has.
    Begun(u32),
    /// The records of the whole zone come, in the version of this serial.
    InZone(u32),
    /// The records come that a difference takes out. The differences lead to the version of this serial.
    TakingOut(u32),
    /// The records come that a difference gives. The differences lead to the version of the first serial; this one makes that of the second.
    Giving(u32, u32),
    /// The answer has come to its end: it is the whole zone.
    WholeZone,
    /// It has come to its end: it is differences from the version that is held to the one that the primary has.
    AllDifferences,
    /// It is the serial of the version that the primary has: that was asked for, or the version that is held isn't older. What comes behind it
    /// isn't looked at.
    SerialAlone(u32),
}

/// How far an answer has come behind some records.
pub(crate) fn behind_all(
    asked: &Asked,
    stage: Stage,
    records: &[Record],
) -> Result<Stage, AnswerFault>
    ensures { Gives result (behind_all asked.now stage records.now) }
{
    let mut reached = stage;
    for given in records {
        match behind_record(asked, reached, given) {
            Ok(next) => reached = next,
            Err(fault) => return Err(fault),
        }
    }
    Ok(reached)
}

/// How far it has come behind a record.
fn behind_record(asked: &Asked, stage: Stage, record: &Record) -> Result<Stage, AnswerFault>
    ensures { result ≡ behind_record asked.now stage «record».now }
{
    if record.dns_class != DNSClass::IN {
        return Err(AnswerFault::OtherClass);
    }
    if !is_inside(&asked.origin, &record.name) {
        return Err(AnswerFault::Outside);
    }
    match serial_at(&asked.origin, record) {
        Some(serial) => behind_soa(asked.question, stage, serial),
        None => behind_other(stage),
    }
}

/// Whether a name is at or below an origin.
fn is_inside(origin: &Name, name: &Name) -> bool
    ensures { result ≡ is_at_or_above (lower origin.now) (lower name.now) }
{
    origin.zone_of(name)
}

/// The serial of a record, if it is the SOA record of the zone of an origin.
pub(crate) fn serial_at(origin: &Name, record: &Record) -> Option<u32>
    ensures { result ≡ serial_at origin.now «record».now }
{
    if record.name != *origin {
        return None;
    }
    soa_serial(&record.rdata)
}

/// How far an answer has come behind an SOA record of the zone.
fn behind_soa(question: Question, stage: Stage, serial: u32) -> Result<Stage, AnswerFault>
    ensures { result ≡ behind_soa question stage serial }
{
    match stage {
        Stage::Before => Ok(behind_first(question, serial)),
        Stage::Begun(newest) => behind_second(question, newest, serial),
        Stage::InZone(newest) => behind_zone(newest, serial),
        Stage::TakingOut(newest) => Ok(Stage::Giving(newest, serial)),
        Stage::Giving(newest, reached) => behind_difference(newest, reached, serial),
        Stage::WholeZone | Stage::AllDifferences => Err(AnswerFault::BehindEnd),
        Stage::SerialAlone(alone) => Ok(Stage::SerialAlone(alone)),
    }
}

/// How far it has come behind the first SOA record.
fn behind_first(question: Question, serial: u32) -> Stage
    ensures { result ≡ behind_first question serial }
{
    match question {
        Question::Soa => Stage::SerialAlone(serial),
        Question::Changes(held) => {
            if is_newer(serial, held) {
                Stage::Begun(serial)
            } else {
                Stage::SerialAlone(serial)
            }
        }
        Question::Zone => Stage::Begun(serial),
    }
}

/// How far it has come behind an SOA record that comes next.
fn behind_second(question: Question, newest: u32, serial: u32) -> Result<Stage, AnswerFault>
    ensures { result ≡ behind_second question newest serial }
{
    match question {
        Question::Changes(held) => {
            if serial == held {
                Ok(Stage::TakingOut(newest))
            } else {
                behind_zone(newest, serial)
            }
        }
        Question::Soa | Question::Zone => behind_zone(newest, serial),
    }
}

/// How far it has come behind an SOA record that comes behind the zone.
fn behind_zone(newest: u32, serial: u32) -> Result<Stage, AnswerFault>
    ensures { result ≡ behind_zone newest serial }
{
    if serial == newest {
        Ok(Stage::WholeZone)
    } else {
        Err(AnswerFault::OtherSerial)
    }
}

/// How far it has come behind an SOA record that comes behind a difference.
fn behind_difference(newest: u32, reached: u32, serial: u32) -> Result<Stage, AnswerFault>
    ensures { result ≡ behind_difference newest reached serial }
{
    if serial != reached {
        return Err(AnswerFault::OtherSerial);
    }
    if serial == newest {
        return Ok(Stage::AllDifferences);
    }
    Ok(Stage::TakingOut(newest))
}

/// How far it has come behind another record.
fn behind_other(stage: Stage) -> Result<Stage, AnswerFault>
    ensures { result ≡ behind_other stage }
{
    match stage {
        Stage::Before => Err(AnswerFault::NoSoa),
        Stage::Begun(newest) => Ok(Stage::InZone(newest)),
        Stage::WholeZone | Stage::AllDifferences => Err(AnswerFault::BehindEnd),
        Stage::InZone(_) | Stage::TakingOut(_) | Stage::Giving(_, _) | Stage::SerialAlone(_) => {
            Ok(stage)
        }
    }
}
