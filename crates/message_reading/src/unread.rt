//! Owners and questions that are passed over unread.
ghost use Rattle.std.specs.Prelude.{◌≡◌, option_map};
ghost use Rattle.message_reading.specs.Unread.{behind_owner, behind_questions};

use crate::octets::octets_of;

/// What follows the owner of a record, or the name of a question, at the start of octets: its labels are passed over up
/// to its end or to a pointer (RFC 1035 section 4.1.4), which isn't followed. None if it doesn't end within the octets,
/// in 127 labels, or has a reserved octet in place of a length. Doesn't allocate.
pub fn behind_owner(octets: &[u8]) -> Option<&[u8]>
    ensures { option_map (λ x. x.now) result ≡ behind_owner 128 octets.now }
{
    let mut rest = octets;
    for _ in 0..128usize {
        let (first, behind) = rest.split_first()?;
        if *first == 0 {
            return Some(behind);
        }
        if *first < 64 {
            let (_, next) = octets_of(usize::from(*first), behind)?;
            rest = next;
        } else {
            if *first < 192 {
                return None;
            }
            let (_, next) = behind.split_first()?;
            return Some(next);
        }
    }
    None
}

/// What follows so many questions (RFC 1035 section 4.1.2), whose names are passed over as owners are; none if they
/// don't end within the octets. Doesn't allocate.
pub fn behind_questions(count: u16, octets: &[u8]) -> Option<&[u8]>
    ensures { option_map (λ x. x.now) result ≡ behind_questions count octets.now }
{
    let mut rest = octets;
    for _ in 0..count {
        rest = behind_question(rest)?;
    }
    Some(rest)
}

/// What follows one question.
#[tactic(auto, unfolding(crate::specs::Unread::behind_questions))]
fn behind_question(octets: &[u8]) -> Option<&[u8]>
    ensures { option_map (λ x. x.now) result ≡ behind_questions 1 octets.now }
{
    let fields = behind_owner(octets)?;
    let (_, rest) = octets_of(4, fields)?;
    Some(rest)
}
