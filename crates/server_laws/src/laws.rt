//! Laws of the answers to messages. Each is an empty function whose contract is the law, so a program has no need to call one.
//!
//! Those of what an answer proves are of queries with DNSSEC for names that a zone answers which denies by NSEC or by NSEC3, as
//! `response_laws` has it, and of answers that weren't cut: where TC is set, nothing is promised of what was left.
ghost use Rattle.server_laws.specs.OptionsBack.{OptionsReadBack};
ghost use Rattle.server_laws.specs.ProvedAnswers.{AnswerProvesByHashes, AnswerProvesWhatItSays, OneZoneAnswers};

/// For each name and type, one zone of a server answers, or none does.
pub fn one_zone_answers()
    ensures { OneZoneAnswers }
{}

/// An answer without TC reads back as the message of what the zone says: with its code, its answer section and its authority
/// section, record by record. From a zone that denies by NSEC, what it says is proved to a validator by the NSEC records in the
/// authority section of the message (`ProvesWhatItSays` of `response_laws`). Only if a record of the zone has data without a
/// wire form is the message SERVFAIL alone.
pub fn answers_prove_what_they_say()
    ensures { AnswerProvesWhatItSays }
{}

/// The same for an answer from a zone that denies by NSEC3, with opt-out or without: what it says is proved by the NSEC3
/// records in the authority section of the message (`ProvesByHashes` of `response_laws`).
pub fn hashed_answers_prove_what_they_say()
    ensures { AnswerProvesByHashes }
{}

/// A response to a query with an OPT record reads back, once options are put into the OPT record with which it ends, as the same
/// message, with these options in that record.
pub fn options_read_back()
    ensures { OptionsReadBack }
{}
