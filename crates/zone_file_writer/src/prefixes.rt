//! Address prefixes, printed.
ghost use Rattle.std.specs.Prelude.{◌≡◌, ◌<◌, ◌&&◌, Some, None, IfOk, IfSome, if◌then◌else◌, length, option_map, string_bytes};
ghost use Rattle.record_fields.specs.Prefixes.{prefix_of_word};
ghost use Rattle.zone_file_writer.specs.BareWords.{is_bare};
ghost use Rattle.zone_file_writer.specs.Locations.{is_octets};
ghost use Rattle.zone_file_writer.specs.Prefixes.{family_text, item_front, negation_text, prefix_front, prefix_text, prefix_word, prefixes_within, with_zeros, without_sign};
ghost use Rattle.zone_file_writer.specs.Rows.{appended, ended, one_host};
ghost use Rattle.zone_file_writer.specs.Words.{Bare};

use crate::addresses::Ipv6Text;
use crate::bare_words::is_bare;
use crate::fronts::front_octets;
use message_reading::{octet_of, short_of};
use record_fields::read_prefix;
use std::alloc::{AllocError, Global};
use std::fmt;
use std::fmt::Write;

/// Appends prefixes, none or more, and gives whether the octets are prefixes that the words are read as.
#[tactic(auto, using(crate::proofs::PrefixTexts::prefix_more, crate::proofs::PrefixTexts::prefix_stuck, crate::proofs::PrefixTexts::prefixes_end))]
pub(crate) fn push_prefixes(
    alloc: Global,
    octets: &[u8],
    text: &mut String,
) -> Result<bool, AllocError>
    ensures { IfOk result (λ is. (if is then Some (string_bytes text.new) else None)
        ≡ ended (string_bytes text.old) (prefixes_within (length octets.now) octets.now)) }
{
    let mut rest = octets;
    while !rest.is_empty() {
        match push_prefix(alloc, rest, text)? {
            Some(behind) => rest = behind,
            None => return Ok(false),
        }
    }
    Ok(true)
}

/// Appends the prefix at the front of octets, and gives the octets behind it; none if no prefix is there that its word is read as.
fn push_prefix<'o>(
    alloc: Global,
    octets: &'o [u8],
    text: &mut String,
) -> Result<Option<&'o [u8]>, AllocError>
    ensures value { IfOk result (λ rest. option_map (λ r. (string_bytes text.new, r.now)) rest
        ≡ appended (string_bytes text.old) (one_host (prefix_front octets.now))) }
    ensures shorter { IfOk result (λ rest. IfSome rest (λ r. length r.now < length octets.now)) }
{
    let Some((item, behind)) = item_front(octets) else {
        return Ok(None);
    };
    let Some(word) = prefix_word(alloc, item)? else {
        return Ok(None);
    };
    write!(text, " {word}")?;
    Ok(Some(behind))
}

/// The octets of the prefix at the front, and those behind it.
fn item_front(octets: &[u8]) -> Option<(&[u8], &[u8])>
    ensures value { option_map (λ x. (x.0.now, x.1.now)) result ≡ item_front octets.now }
    ensures shorter { IfSome result (λ x. length x.1.now < length octets.now) }
{
    let (_, rest) = short_of(octets)?;
    let (_, rest) = octet_of(rest)?;
    let (count, _) = octet_of(rest)?;
    front_octets(4 + usize::from(count % 128), octets)
}

/// The word of a prefix, if it is read as the same octets.
fn prefix_word(alloc: Global, item: &[u8]) -> Result<Option<String>, AllocError>
    ensures { IfOk result
        (λ word. option_map (λ w. Bare (string_bytes w)) word ≡ prefix_word item.now) }
{
    let Some(text) = prefix_text(alloc, item)? else {
        return Ok(None);
    };
    if is_read(alloc, text.as_bytes(), item)? {
        Ok(Some(text))
    } else {
        Ok(None)
    }
}

/// The text of a prefix, by its octets.
fn prefix_text(alloc: Global, item: &[u8]) -> Result<Option<String>, AllocError>
    ensures { IfOk result (λ text. option_map string_bytes text ≡ prefix_text item.now) }
{
    let Some((family, rest)) = short_of(item) else {
        return Ok(None);
    };
    let Some((bits, rest)) = octet_of(rest) else {
        return Ok(None);
    };
    let Some((count, part)) = octet_of(rest) else {
        return Ok(None);
    };
    let octets = with_zeros(alloc, part)?;
    let negation = NegationText(count >= 128);
    let address = FamilyText(family, octets.as_slice());
    let text = format!(in alloc; "{negation}{family}:{address}/{bits}")?;
    Ok(Some(text))
}

/// The octets of an address with octets of zero behind them.
fn with_zeros(alloc: Global, address: &[u8]) -> Result<Vec<u8>, AllocError>
    ensures { IfOk result (λ octets. octets.items ≡ with_zeros address.now) }
{
    let mut octets = Vec::from_slice(alloc, address)?;
    octets.extend_from_slice(&[0; 16])?;
    Ok(octets)
}

/// Whether a word is read as these octets.
fn is_read(alloc: Global, word: &[u8], octets: &[u8]) -> Result<bool, AllocError>
    ensures { IfOk result (λ is.
        is ≡ (is_bare (without_sign word.now)
        && is_octets octets.now (prefix_of_word word.now))) }
{
    if !is_bare(without_sign(word)) {
        return Ok(false);
    }
    match read_prefix(alloc, word)? {
        Some(read) => Ok(read.as_slice() == octets),
        None => Ok(false),
    }
}

/// A word without the sign of a prefix that is negated.
fn without_sign(word: &[u8]) -> &[u8]
    ensures { result.now ≡ without_sign word.now }
{
    match word {
        [b'!', others @ ..] => others,
        _ => word,
    }
}

/// The sign of a prefix that is negated; nothing of another.
#[derive(Drop)]
struct NegationText(bool);

impl fmt::Display for NegationText {
    ghost output = { λ n. Some (negation_text n.0) };

    fn fmt<W: fmt::Write>(&self, f: &mut fmt::Formatter<W>) -> fmt::Result {
        if self.0 { write!(f, "!") } else { Ok(()) }
    }
}

/// The address of a family in front of octets; nothing of one that isn't known.
#[derive(Drop)]
struct FamilyText<'r>(u16, &'r [u8]);

impl fmt::Display for FamilyText<'_> {
    ghost output = { λ a. Some (family_text a.0 a.1.now) };

    fn fmt<W: fmt::Write>(&self, f: &mut fmt::Formatter<W>) -> fmt::Result {
        match self.0 {
            1 => match front_octets(4, self.1) {
                Some(([a, b, c, d], _)) => write!(f, "{a}.{b}.{c}.{d}"),
                _ => Ok(()),
            },
            2 => match front_octets(16, self.1) {
                Some((front, _)) => {
                    let mut address = [0; 16];
                    address.copy_from_slice(front);
                    write!(f, "{}", Ipv6Text(&address))
                }
                None => Ok(()),
            },
            _ => Ok(()),
        }
    }
}
