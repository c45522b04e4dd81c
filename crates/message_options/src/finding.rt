//! The options that a message has.
ghost use Rattle.std.specs.Prelude.{◌≡◌, option_map};
ghost use Rattle.message_options.specs.Options.{opt_of, opt_within, option_of, option_value};

use message_reading::{
    RecordFrame, behind_questions, octets_of, read_header, record_frame_of, short_of,
};
use zone_proto::RecordType;

/// How many options a query has at most; with more it is malformed.
const MOST_OPTIONS: usize = 64;

/// The OPT record of a message, a query or a response: what it says of itself, and its data, which are its options; none if it has no
/// OPT record, or ends before it. Of several, this is the first. Doesn't allocate.
#[tactic(auto, unfolding(crate::specs::Options::opt_of))]
pub fn opt_of(message: &[u8]) -> Option<(RecordFrame, &[u8])>
    ensures { option_map (λ x. (x.0, x.1.now)) result ≡ opt_of message.now }
{
    let (header, rest) = read_header(message)?;
    let records = behind_questions(header.questions, rest)?;
    let count = u32::from(header.answers)
        + u32::from(header.authorities)
        + u32::from(header.additionals);
    opt_within(count, records)
}

/// The same among so many records.
fn opt_within(count: u32, records: &[u8]) -> Option<(RecordFrame, &[u8])>
    ensures { option_map (λ x. (x.0, x.1.now)) result ≡ opt_within count records.now }
{
    let mut rest = records;
    for _ in 0..count {
        let (frame, data, next) = record_frame_of(rest)?;
        if frame.record_type == RecordType::OPT.0 {
            return Some((frame, data));
        }
        rest = next;
    }
    None
}

/// The value of the first option of a code among the options of a query (RFC 6891 section 6.1.2); none if no option has the code. Doesn't
/// allocate.
pub fn option_value(code: u16, options: &[u8]) -> Option<&[u8]>
    ensures { option_map (λ x. x.now) result ≡ option_value 64 code options.now }
{
    let mut rest = options;
    for _ in 0..MOST_OPTIONS {
        let (found, value, next) = option_of(rest)?;
        if found == code {
            return Some(value);
        }
        rest = next;
    }
    None
}

/// An option: its code, its value, and what follows it.
fn option_of(octets: &[u8]) -> Option<(u16, &[u8], &[u8])>
    ensures { option_map (λ x. (x.0, x.1.now, x.2.now)) result ≡ option_of octets.now }
{
    let (code, rest) = short_of(octets)?;
    let (count, rest) = short_of(rest)?;
    let (value, rest) = octets_of(usize::from(count), rest)?;
    Some((code, value, rest))
}
