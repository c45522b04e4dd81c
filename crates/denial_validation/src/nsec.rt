//! What NSEC records prove (RFC 4035 section 5.4).
//!
//! Each call is told the apex of the zone, which is the name that signed the records, and is lent the records of a
//! response; those of other types than NSEC, and those whose owner is no name of the zone, prove nothing. It doesn't
//! allocate. The signatures are taken as checked, each under the owner itself: a record that was made from a wildcard
//! proves nothing (RFC 4035 section 5.4).
//!
//! A call looks at each record once. Only where a record denies the name are all asked once more, of the wildcard that would
//! answer in the name's place. Of the records of one zone one alone denies a name; where records contradict one another, the
//! cost grows with the square of their number.
ghost use Rattle.std.specs.Prelude.{◌≡◌, ◌==◌, ◌&&◌, false, length, find, option_map};
ghost use Rattle.std.specs.Option.{option_map_or};
ghost use Rattle.denial_validation.specs.Encloser.{ancestor_of};
ghost use Rattle.denial_validation.specs.Judgement.{nsec_proof};
ghost use Rattle.denial_validation.specs.NsecProofs.{denies_name, is_denied, is_bare, wildcard_is, shown_encloser, denied_encloser, proves_name_error, proves_no_data, proves_empty_non_terminal, proves_wildcard_no_data, proves_wildcard_answer, proves_unsigned_delegation};
ghost use Rattle.denial_validation.specs.NsecRecords.{lent_nsec};

use crate::asked_name::AskedName;
use crate::nsec_record::LentNsec;
use crate::nsec_records::NsecRecords;
use crate::proof::Proof;
use zone_proto::{LowerName, Record, RecordType};

/// What the records prove about `name` and a type: the first case of [`Proof`] that holds, or nothing if none does.
pub fn proof(
    apex: &LowerName,
    records: &[&Record],
    name: &LowerName,
    record_type: RecordType,
) -> Option<Proof>
    ensures { result ≡ nsec_proof apex.now (lent_nsec records.now) name.now record_type.0 }
{
    if proves_name_error(apex, records, name) {
        Some(Proof::NameError { opted_out: false })
    } else if proves_unsigned_delegation(apex, records, name) {
        Some(Proof::UnsignedDelegation)
    } else if proves_empty_non_terminal(apex, records, name) {
        Some(Proof::EmptyNonTerminal)
    } else if proves_no_data(apex, records, name, record_type) {
        Some(Proof::NoData)
    } else if proves_wildcard_no_data(apex, records, name, record_type) {
        Some(Proof::WildcardNoData { opted_out: false })
    } else {
        let encloser_labels = denied_encloser_labels(apex, records, name)?;
        Some(Proof::WildcardAnswer {
            encloser_labels,
            opted_out: false,
        })
    }
}

/// Whether the records prove a name error: that `name` doesn't exist, and nor does the wildcard that would answer in its place,
/// the one under its closest encloser (RFC 4035 sections 3.1.3.2 and 5.4).
pub fn proves_name_error(apex: &LowerName, records: &[&Record], name: &LowerName) -> bool
    ensures { result ≡ proves_name_error apex.now (lent_nsec records.now) name.now }
{
    let apex = AskedName::of(apex);
    NsecRecords::among(records).any(|nsec| denies_with_wildcard(&apex, records, &nsec, name))
}

/// Whether the records prove that `name` exists, and owns neither a set of the type nor an alias (RFC 4035 sections 3.1.3.1 and
/// 5.4, RFC 6840 section 4.3).
///
/// Of a zone cut the parent's record denies DS alone (RFC 6840 section 4.1), and the child's all but DS (RFC 4035 section 5.2):
/// so no record denies DS of the apex, unless this is the root, which has no parent. The types NSEC and RRSIG, and so ANY, are
/// never denied: the record itself shows that its owner has them.
pub fn proves_no_data(
    apex: &LowerName,
    records: &[&Record],
    name: &LowerName,
    record_type: RecordType,
) -> bool
    ensures { result ≡ proves_no_data apex.now (lent_nsec records.now) name.now record_type.0 }
{
    let apex = AskedName::of(apex);
    let asked = AskedName::of(name);
    NsecRecords::among(records).any(|nsec| nsec.denies_type(&apex, &asked, record_type))
}

/// Whether the records prove that `name` owns no set at all, and is above names that do (RFC 4592 section 2.2.2).
pub fn proves_empty_non_terminal(apex: &LowerName, records: &[&Record], name: &LowerName) -> bool
    ensures { result ≡ proves_empty_non_terminal apex.now (lent_nsec records.now) name.now }
{
    let apex = AskedName::of(apex);
    let asked = AskedName::of(name);
    NsecRecords::among(records).any(|nsec| nsec.shows_empty(&apex, &asked))
}

/// Whether the records prove that `name` doesn't exist, and that the wildcard that answers in its place owns neither a set of
/// the type nor an alias, or no set at all (RFC 4035 sections 3.1.3.4 and 5.4).
pub fn proves_wildcard_no_data(
    apex: &LowerName,
    records: &[&Record],
    name: &LowerName,
    record_type: RecordType,
) -> bool
    ensures { result
        ≡ proves_wildcard_no_data apex.now (lent_nsec records.now) name.now record_type.0 }
{
    let apex = AskedName::of(apex);
    NsecRecords::among(records).any(|nsec| denies_with_bare_wildcard(
        &apex,
        records,
        &nsec,
        name,
        record_type,
    ))
}

/// Whether the records prove that an answer to `name` was rightly made from the wildcard at its ancestor with
/// `encloser_labels` labels: that `name` doesn't exist, and that this ancestor is its closest encloser (RFC 4035
/// sections 3.1.3.3 and 5.3.4).
///
/// `encloser_labels` is what the labels field of the answer's RRSIG record says (RFC 4034 section 3.1.3).
pub fn proves_wildcard_answer(
    apex: &LowerName,
    records: &[&Record],
    name: &LowerName,
    encloser_labels: usize,
) -> bool
    ensures { result
        ≡ option_map_or (proves_wildcard_answer apex.now (lent_nsec records.now) name.now)
        (ancestor_of name.now encloser_labels) false }
{
    let apex = AskedName::of(apex);
    let asked = AskedName::of(name);
    NsecRecords::among(records).any(|nsec| {
        nsec.denies_name(&apex, &asked) && encloser_has_labels(&nsec, name, encloser_labels)
    })
}

/// Whether the records prove that `name`, below the apex, is a zone cut of which the parent has no DS (RFC 4035 section 5.2, RFC
/// 6840 section 4.4): what a referral to an unsigned child needs.
pub fn proves_unsigned_delegation(apex: &LowerName, records: &[&Record], name: &LowerName) -> bool
    ensures { result ≡ proves_unsigned_delegation apex.now (lent_nsec records.now) name.now }
{
    let apex = AskedName::of(apex);
    let asked = AskedName::of(name);
    NsecRecords::among(records).any(|nsec| nsec.shows_unsigned_delegation(&apex, &asked))
}

/// Whether `nsec` denies a name, and a record the wildcard at the closest encloser that `nsec` shows.
fn denies_with_wildcard(
    apex: &AskedName<'_>,
    records: &[&Record],
    nsec: &LentNsec<'_>,
    name: &LowerName,
) -> bool
    ensures { result ≡ denies_name apex.now nsec.now name.now
        && wildcard_is (is_denied apex.now (lent_nsec records.now)) nsec.now name.now }
{
    nsec.denies_name(apex, &AskedName::of(name)) && wildcard_is_denied(apex, records, nsec, name)
}

/// Whether a record denies this wildcard.
fn wildcard_is_denied(
    apex: &AskedName<'_>,
    records: &[&Record],
    nsec: &LentNsec<'_>,
    name: &LowerName,
) -> bool
    ensures { result ≡ wildcard_is (is_denied apex.now (lent_nsec records.now)) nsec.now name.now }
{
    match nsec.shown_encloser(name) {
        Some(encloser) => {
            let wildcard = AskedName::wildcard_under(encloser);
            NsecRecords::among(records).any(|other| other.denies_name(apex, &wildcard))
        }
        None => false,
    }
}

/// Whether `nsec` denies a name, and a record shows that this wildcard has no set of the type, or none at all.
fn denies_with_bare_wildcard(
    apex: &AskedName<'_>,
    records: &[&Record],
    nsec: &LentNsec<'_>,
    name: &LowerName,
    record_type: RecordType,
) -> bool
    ensures { result ≡ denies_name apex.now nsec.now name.now
        && wildcard_is (is_bare apex.now (lent_nsec records.now) record_type.0) nsec.now name.now }
{
    nsec.denies_name(apex, &AskedName::of(name))
        && wildcard_is_bare(apex, records, nsec, name, record_type)
}

/// Whether a record shows that this wildcard has no set of the type, or none at all.
fn wildcard_is_bare(
    apex: &AskedName<'_>,
    records: &[&Record],
    nsec: &LentNsec<'_>,
    name: &LowerName,
    record_type: RecordType,
) -> bool
    ensures { result
        ≡ wildcard_is (is_bare apex.now (lent_nsec records.now) record_type.0) nsec.now name.now }
{
    match nsec.shown_encloser(name) {
        Some(encloser) => {
            let wildcard = AskedName::wildcard_under(encloser);
            NsecRecords::among(records).any(|other| {
                other.denies_type(apex, &wildcard, record_type)
                    || other.shows_empty(apex, &wildcard)
            })
        }
        None => false,
    }
}

/// Whether the closest encloser of a name that `nsec` shows has so many labels.
fn encloser_has_labels(nsec: &LentNsec<'_>, name: &LowerName, labels: usize) -> bool
    ensures { result
        ≡ option_map_or (λ e. length e == labels) (shown_encloser nsec.now name.now) false }
{
    encloser_labels(nsec, name) == Some(labels)
}

/// How many labels the closest encloser has that the first record shows which denies the name.
fn denied_encloser_labels(apex: &LowerName, records: &[&Record], name: &LowerName) -> Option<usize>
    ensures { result
        ≡ option_map length (denied_encloser apex.now (lent_nsec records.now) name.now) }
{
    let nsec = first_denying(&AskedName::of(apex), records, &AskedName::of(name))?;
    encloser_labels(&nsec, name)
}

/// The first record that denies a name.
fn first_denying<'r>(
    apex: &AskedName<'_>,
    records: &[&'r Record],
    name: &AskedName<'_>,
) -> Option<LentNsec<'r>>
    ensures { result ≡ find (λ r. denies_name apex.now r name.now) (lent_nsec records.now) }
{
    NsecRecords::among(records).find(|nsec| nsec.denies_name(apex, name))
}

/// How many labels the closest encloser of a name has that `nsec` shows.
fn encloser_labels(nsec: &LentNsec<'_>, name: &LowerName) -> Option<usize>
    ensures { result ≡ option_map length (shown_encloser nsec.now name.now) }
{
    Some(nsec.shown_encloser(name)?.len())
}
