//! Lines of a text, as they are counted: by line feeds.
ghost use Rattle.std.specs.Prelude.{◌≡◌, ◌==◌, ◌&&◌, min, count_by, nat_le};
ghost use Rattle.zone_texts.specs.GoingOn.{GoesOnAt, begins_entry};

/// Three octets that some editors put before a text: a byte order mark in UTF-8.
const BYTE_ORDER_MARK: &[u8] = b"\xef\xbb\xbf";

/// The text behind a byte order mark, if there is one.
pub(crate) fn behind_mark(text: &[u8]) -> Option<&[u8]> {
    text.strip_prefix(BYTE_ORDER_MARK)
}

/// How many line feeds a text has.
pub(crate) fn count_lines(text: &[u8]) -> u64
    ensures { result ≡ count_by (λ b. b == 10) text.now }
{
    text.iter().filter(|octet| **octet == b'\n').count() as u64
}

/// How many octets stand before the first line that begins with an owner or a control entry, behind a line: where reading goes on
/// whose entries a fault of that line ends. All octets where there is none.
pub(crate) fn octets_before_start(text: &[u8], line: u64) -> usize
    ensures { GoesOnAt text.now line result }
{
    let mut ended = 0u64;
    let mut is_begin = false;
    let mut at = 0usize;
    while at < text.len() {
        let octet = text[at];
        if is_start(is_begin, line, ended, octet) {
            return at;
        }
        is_begin = octet == b'\n';
        if is_begin {
            ended += 1;
        }
        at += 1;
    }
    at
}

/// Whether an octet begins such a line, where so many lines have ended before it.
fn is_start(is_begin: bool, line: u64, ended: u64, octet: u8) -> bool
    ensures { result ≡ (is_begin && (nat_le line ended && begins_entry octet)) }
{
    is_begin && line <= ended && begins_entry(octet)
}

/// Whether an octet at the beginning of a line begins an entry.
fn begins_entry(octet: u8) -> bool
    ensures { result ≡ begins_entry octet }
{
    !matches!(octet, b' ' | b'\t' | b'\r' | b'\n' | b';' | b')')
}
