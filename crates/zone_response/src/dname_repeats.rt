//! Sets that a search passed and that are what is asked for: they appear once in a section (RFC 2181 section 5.5).
ghost use Rattle.std.specs.Prelude.{◌≡◌, ◌==◌, ◌&&◌, ◌||◌, map, IfOk, IsOkUnless};
ghost use Rattle.std.specs.List.{list_any};
ghost use Rattle.zone_proto.specs.Types.{RRSIG, DNAME};
ghost use Rattle.zone_response.specs.Paths.{is_sought, unless_answered};
ghost use Rattle.zone_response.specs.Sections.{sent_set, is_signed};
ghost use Rattle.zone_response.specs.Steps.{next_of};

use crate::names::same_name;
use crate::response::{Part, Sent, is_signed};
use crate::steps::{End, Next};
use zone_proto::{LowerName, ProtoError, RecordType};

/// What comes next behind these sets of the answer section: the end, where one of them tells what is asked for of the
/// next name. Its only error is `Memory`.
pub(crate) fn unless_answered<'z>(
    next: Next<'z>,
    record_type: RecordType,
    answers: &[Sent<'_>],
) -> Result<Next<'z>, ProtoError>
    ensures ok { IfOk result
        (λ came. next_of came
        ≡ unless_answered record_type.0 (map sent_set answers.now) (next_of next.entry)) }
    ensures err { IsOkUnless result ProtoError.Memory }
{
    match next {
        Next::On(name) => {
            if is_answered(answers, record_type, &name)? {
                return Ok(Next::Ends(End::Complete));
            }
            Ok(Next::On(name))
        }
        Next::Ends(end) => Ok(Next::Ends(end)),
    }
}

/// Whether one of these sets tells what is asked for of a name.
fn is_answered(
    answers: &[Sent<'_>],
    record_type: RecordType,
    name: &LowerName,
) -> Result<bool, ProtoError>
    ensures ok { IfOk result
        (λ told. told ≡ list_any (is_sought record_type.0 name.now) (map sent_set answers.now)) }
    ensures err { IsOkUnless result ProtoError.Memory }
{
    for item in answers {
        if is_sought(item, record_type, name)? {
            return Ok(true);
        }
    }
    Ok(false)
}

/// Whether a set tells what is asked for of a name: a DNAME set of the name, where that is asked for, or its signatures are.
fn is_sought(item: &Sent<'_>, record_type: RecordType, name: &LowerName) -> Result<bool, ProtoError>
    ensures ok { IfOk result
        (λ told. told ≡ is_sought record_type.0 name.now (sent_set item.now)) }
    ensures err { IsOkUnless result ProtoError.Memory }
{
    let set = item.set.set();
    if set.record_type() != RecordType::DNAME || !has_asked(item, record_type) {
        return Ok(false);
    }
    let owner = LowerName::new(set.name())?;
    Ok(same_name(&owner, name))
}

/// Whether a DNAME set is there with what is asked for: its records, or signatures.
fn has_asked(item: &Sent<'_>, record_type: RecordType) -> bool
    ensures { result ≡ (record_type.0 == DNAME)
        || (record_type.0 == RRSIG) && is_signed (sent_set item.now) }
{
    record_type == RecordType::DNAME || record_type == RecordType::RRSIG && goes_out_signed(item)
}

/// Whether a set is sent with a signature that covers its type.
fn goes_out_signed(item: &Sent<'_>) -> bool
    ensures { result ≡ is_signed (sent_set item.now) }
{
    match item.part {
        Part::Records => false,
        Part::Signed | Part::Signatures => is_signed(item.set.set()),
    }
}
