//! What stands at the front of octets, and the octets behind it.
ghost use Rattle.std.specs.Prelude.{◌≡◌, ◌≤◌, ◌<◌, length, option_map, IfSome, IsTrue};
ghost use Rattle.message_reading.specs.Octets.{octets_of};
ghost use Rattle.zone_file_writer.specs.Labels.{is_wire_form};
ghost use Rattle.zone_file_writer.specs.Rows.{if_name, name_front, name_length};
ghost use Rattle.zone_file_writer.specs.Strings.{strings_of};

use crate::labels::is_wire_form;
use crate::strings::split_string;

/// So many octets; none if there are fewer.
pub(crate) fn front_octets(count: usize, octets: &[u8]) -> Option<(&[u8], &[u8])>
    ensures value { option_map (λ x. (x.0.now, x.1.now)) result ≡ octets_of count octets.now }
    ensures count { IfSome result (λ x. length x.0.now ≡ count) }
{
    if count > octets.len() {
        return None;
    }
    Some(octets.split_at(count))
}

/// The wire form of a name (RFC 1035 section 3.1).
pub(crate) fn front_name(octets: &[u8]) -> Option<(&[u8], &[u8])>
    ensures value { option_map (λ x. (x.0.now, x.1.now)) result ≡ name_front octets.now }
    ensures name { IfSome result (λ x. IsTrue (is_wire_form x.0.now)) }
    ensures shorter { IfSome result (λ x. length x.1.now < length octets.now) }
{
    let count = name_length(octets)?;
    let (name, rest) = octets.split_at(count);
    if is_wire_form(name) {
        Some((name, rest))
    } else {
        None
    }
}

/// How many octets the labels at the front have, up to the one without octets.
#[tactic(auto, using(crate::proofs::NameLengths::label_last, crate::proofs::NameLengths::label_none))]
fn name_length(octets: &[u8]) -> Option<usize>
    ensures value { result ≡ name_length (strings_of octets.now).0 }
    ensures within { IfSome result (λ n. n ≤ length octets.now) }
    ensures some { IfSome result (λ n. 0 < n) }
{
    let mut count = 0usize;
    let mut rest = octets;
    while let Some((label, others)) = split_string(rest) {
        count += 1 + label.len();
        if label.is_empty() {
            return Some(count);
        }
        rest = others;
    }
    None
}
