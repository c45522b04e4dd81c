//! What a query says by EDNS.
ghost use Rattle.std.specs.Prelude.{◌≡◌, true};
ghost use Rattle.ready_answers.specs.Again.{said_by};

use message_reading::Query;

/// What a query says by EDNS that its response repeats: whether there is an OPT record (RFC 6891 section 6.1.1), and its DO
/// bit (RFC 3225 section 3).
pub(crate) fn said_by(query: &Query) -> Option<bool>
    ensures { result ≡ said_by query.now.extension }
{
    match query.extension {
        Some(extension) => Some(extension.dnssec_ok),
        None => None,
    }
}

/// Whether two queries say the same by EDNS.
pub(crate) fn is_same(left: Option<bool>, right: Option<bool>) -> bool
    ensures { result ≡ true → left ≡ right }
{
    match (left, right) {
        (None, None) => true,
        (Some(left), Some(right)) => left == right,
        _ => false,
    }
}
