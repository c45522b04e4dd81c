//! Responses written group by group, within a limit (RFC 2181 section 9, RFC 9471 section 3.1).
ghost use Rattle.std.specs.Prelude.{◌≡◌, ◌<◌, ◌+◌, ◌^◌, IfSome};
ghost use Rattle.zone_proto.specs.Names.{wire_length};
ghost use Rattle.message_writing.specs.Writers.{counts_with};

use crate::error::WriteError;
use crate::group_writer::{Setting, count_if, write_group};
use crate::hints::{AFTER_HEADER, Hints};
use crate::kept_records::KeptRecords;
use crate::known_names::is_known;
use crate::message_parts::{
    Counts, GREATEST_CODE, OPT_OCTETS, opt_count, push_opt, push_question, put_header,
};
use crate::name_writer::wire_length;
use crate::response::{Group, ResponseHead, Section, without_groups};
use message_reading::Question;
use std::alloc::{AllocError, Global};
use zone_proto::LowerName;

/// A response that is being written: `begin`, `put` for each of its groups, and `finish`, with one buffer, which nothing else changes
/// meanwhile. No list of the groups is needed.
#[derive(Drop)]
pub struct ResponseWriter<'q> {
    pub(crate) head: ResponseHead<'q>,
    pub(crate) setting: Setting<'q>,
    pub(crate) hints: Hints,
    pub(crate) counts: Counts,
}

impl<'q> ResponseWriter<'q> {
    ghost use Rattle.std.specs.Prelude.{◌≢◌, ◌≤◌, ℕ, List, [], ◌∷◌, IfErr, IfOk, OnOk};
    ghost use Rattle.message_writing.specs.Outcomes.{FailsToPutAny};
    ghost use Rattle.message_writing.specs.Responses.{IsWritten, records_of};
    ghost use Rattle.message_writing.specs.Writers.{CanGoOn, FailsToBegin, HasNoGroups, IsHeadOf, IsUnderway, PutsGroups};
    ghost use Rattle.message_writing.specs.KeptText.{IsPlaced};
    ghost use Rattle.message_writing.specs.KnownNames.{IsKnown};
    ghost use Rattle.message_writing.specs.declared.response.Group.{Group as OfGroup};
    ghost use Rattle.message_writing.specs.declared.response.Response.{Response as Meant};
    ghost use Rattle.zone_proto.specs.Names.{Name as OfName};
    ghost use Rattle.zone_proto.specs.declared.record.Record.{Record as Sent};

    /// Begins a response of at most so many octets, in place of the octets of `out`: room for its header, and the question. `asked`
    /// is the name of the question in lower case, if the caller has it: by it owners are found sooner, and the octets are the same.
    ///
    /// `BadCode` if the response code has more than twelve bits; `NoRoom` if header, question and OPT record exceed the limit, which
    /// 282 octets never do, as a name has at most 255 (RFC 1035 section 3.1); `Memory` if there isn't enough.
    pub fn begin(
        alloc: Global,
        out: &mut Vec<u8>,
        head: ResponseHead<'q>,
        asked: Option<&'q LowerName>,
        limit: u16,
    ) -> Result<ResponseWriter<'q>, WriteError>
        ensures begun { IfOk result (λ writer. (r : Meant) → IsHeadOf head.entry r → HasNoGroups r
            → IsUnderway limit r writer out.new.items) }
        ensures going { IfOk result (λ writer. CanGoOn writer out.new.items) }
        ensures code { OnOk result (head.entry.code ≤ 4095) }
        ensures err { IfErr result (FailsToBegin limit head.entry) }
        ensures room { 282 ≤ limit → IfErr result (λ e. e ≢ WriteError.NoRoom) }
    {
        out.clear();
        if head.code > GREATEST_CODE {
            return Err(WriteError::BadCode);
        }
        let question = &head.query.question;
        // That its name has no more octets than a name may have is told where its labels are lent.
        let _labels = question.name.labels();
        let opts = opt_count(&without_groups(head));
        out.extend_from_slice(&[0; 12])?;
        push_question(out, question)?;
        let name = out.as_slice().len() - 16;
        let most = usize::from(limit);
        let least = 12 + (name + 4) + OPT_OCTETS * opts;
        if most < least {
            return Err(WriteError::NoRoom);
        }
        let setting = Setting {
            alloc,
            asked: pointed_to(asked, question, name),
            room: most - OPT_OCTETS * opts,
        };
        Ok(ResponseWriter {
            head,
            setting,
            hints: Hints::new(alloc),
            counts: Counts {
                answers: 0,
                authorities: 0,
                additionals: 0,
                truncated: false,
            },
        })
    }

    /// Appends a group to a section: whole, or not at all. Answers, authorities and glue are required: of these nothing is written
    /// from the first group on that exceeds the limit, and nothing that merely helps. A group that merely helps is left out if it
    /// exceeds the limit. Sections are written in the order answers, authorities, glue, additionals.
    ///
    /// `Unwritable` if the data of a record have no wire form; `Memory` if there isn't enough. The response can't go on then.
    pub fn put(
        &mut self,
        out: &mut Vec<u8>,
        section: Section,
        group: &Group<'_>,
    ) -> Result<(), WriteError>
        requires { CanGoOn self.old out.old.items }
        ensures put { OnOk result (PutsGroups section (group.now ∷ [])
            self.old out.old.items self.new out.new.items) }
        ensures going { OnOk result (CanGoOn self.new out.new.items) }
        ensures err { IfErr result (FailsToPutAny (records_of group.now)) }
    {
        if self.counts.truncated {
            return Ok(());
        }
        let written = write_group(out, &mut self.hints, &self.setting, group)?;
        let count = count_if(written, group);
        self.counts = counts_with(self.counts, section, written, count);
        Ok(())
    }

    /// Where an origin stands at the end of the question's name, if it does in the case of these letters and a pointer may lead there.
    pub fn place_of(&self, out: &[u8], origin: &LowerName) -> Option<u16>
        ensures { IfSome result (λ place. IsKnown out.now place origin.now) }
    {
        let whole = wire_length(self.head.query.question.name.labels());
        let end = wire_length(origin.labels());
        if whole < end {
            return None;
        }
        let place = (AFTER_HEADER + (whole - end)) as u16;
        if is_known(out, place, origin.labels()) {
            Some(place)
        } else {
            None
        }
    }

    /// Appends kept records to a section, as [`put`](ResponseWriter::put) appends a group, with pointers to the place of their origin.
    /// Fails only for lack of memory.
    pub fn put_kept(
        &mut self,
        out: &mut Vec<u8>,
        section: Section,
        kept: &KeptRecords,
        place: u16,
    ) -> Result<(), AllocError>
        requires going { CanGoOn self.old out.old.items }
        requires placed { (rs : List Sent) × IsPlaced out.old.items place rs kept.now }
        ensures put { OnOk result ((g : OfGroup)
            → IsPlaced out.old.items place (records_of g) kept.now
            → PutsGroups section (g ∷ []) self.old out.old.items self.new out.new.items) }
        ensures going { OnOk result (CanGoOn self.new out.new.items) }
        ensures known { OnOk result ((p : ℕ) (n : OfName) → IsKnown out.old.items p n
            → IsKnown out.new.items p n) }
    {
        let counts = self.counts;
        if counts.truncated {
            return Ok(());
        }
        let start = out.as_slice().len();
        kept.text.push_to(out, place)?;
        if out.as_slice().len() > self.setting.room {
            out.truncate(start);
            self.counts = counts_with(counts, section, false, 0);
            return Ok(());
        }
        self.counts = counts_with(counts, section, true, kept.count);
        Ok(())
    }

    /// Ends a response: the OPT record, if the query has one, and the header, in which TC is set if a required group was left out.
    /// Fails only for lack of memory.
    pub fn finish(self, out: &mut Vec<u8>) -> Result<(), AllocError>
        requires { CanGoOn self out.old.items }
        ensures { OnOk result ((limit : ℕ) (r : Meant) → IsUnderway limit r self.entry out.old.items
            → IsWritten limit r out.new.items) }
    {
        let response = without_groups(self.head);
        push_opt(out, &response)?;
        let additionals = self.counts.additionals + opt_count(&response);
        let counts = Counts {
            additionals,
            ..self.counts
        };
        put_header(out, &response, counts);
        Ok(())
    }
}

/// The counts with a group more of so many records, which was written or, where `written` is false, left out.
fn counts_with(counts: Counts, section: Section, written: bool, count: usize) -> Counts
    requires answers { counts.answers + count < 2 ^ 64 }
    requires authorities { counts.authorities + count < 2 ^ 64 }
    requires additionals { counts.additionals + count < 2 ^ 64 }
    ensures { result ≡ counts_with section written count counts }
{
    match section {
        Section::Answers => Counts {
            answers: counts.answers + count,
            truncated: !written,
            ..counts
        },
        Section::Authorities => Counts {
            authorities: counts.authorities + count,
            truncated: !written,
            ..counts
        },
        Section::Glue => Counts {
            additionals: counts.additionals + count,
            truncated: !written,
            ..counts
        },
        Section::Additionals => Counts {
            additionals: counts.additionals + count,
            ..counts
        },
    }
}

/// The name that is asked for, if it is spelled in lower case and a pointer to the question stands for it: not for the root, which is
/// one octet itself, nor for a name of the most labels, which is read in more steps than a name that is pointed to may take.
fn pointed_to<'q>(
    asked: Option<&'q LowerName>,
    question: &Question,
    octets: usize,
) -> Option<&'q LowerName>
    requires { octets ≡ wire_length question.now.name }
    ensures { IfSome result (λ name. (name.now ≡ question.now.name)
        × (wire_length question.now.name < 255)) }
{
    let name = asked?;
    if octets > 1 && octets < 255 && name.is_exactly(&question.name) {
        Some(name)
    } else {
        None
    }
}
