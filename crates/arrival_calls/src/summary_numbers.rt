//! What an answer was, in numbers.
ghost use Rattle.std.specs.Prelude.{◌≡◌, if◌then◌else◌};
ghost use Rattle.arrival_calls.specs.ArrivalCalls.{cookie_number, kind_number, numbers_of};

use server_options::{CookieState, ResponseKind, Summary};

/// What an answer was, for a program that isn't written in Rattle.
#[repr(C)]
#[derive(Clone, Copy, Drop)]
pub struct SummaryNumbers {
    /// The response code, of twelve bits (RFC 6891 section 6.1.3).
    pub code: u32,
    /// The number of its kind, in the order of `ResponseKind`.
    pub kind: u32,
    /// 1 if it has TC.
    pub truncated: u32,
    /// The number of what the query told by a cookie, in the order of `CookieState`.
    pub cookie: u32,
    /// How many labels the origin of the zone has that answers, that of the root among them: so many at the end of the question's name are
    /// the origin. 0 where no zone answers.
    pub origin_labels: usize,
}

/// A summary in numbers; zeros for none.
pub(crate) fn numbers_of(summary: Option<Summary>) -> SummaryNumbers
    ensures { result ≡ numbers_of summary }
{
    match summary {
        None => SummaryNumbers {
            code: 0,
            kind: 0,
            truncated: 0,
            cookie: 0,
            origin_labels: 0,
        },
        Some(summary) => SummaryNumbers {
            code: u32::from(summary.code),
            kind: kind_number(summary.kind),
            truncated: bit(summary.truncated),
            cookie: cookie_number(summary.cookie),
            origin_labels: summary.origin_labels,
        },
    }
}

/// 1 for what holds.
fn bit(holds: bool) -> u32
    ensures { result ≡ (if holds then 1 else 0) }
{
    if holds { 1 } else { 0 }
}

/// The number of a kind.
fn kind_number(kind: ResponseKind) -> u32
    ensures { result ≡ kind_number kind }
{
    match kind {
        ResponseKind::Answer => 0,
        ResponseKind::Referral => 1,
        ResponseKind::NoData => 2,
        ResponseKind::NameError => 3,
        ResponseKind::Refused => 4,
        ResponseKind::Failed => 5,
        ResponseKind::Truncated => 6,
        ResponseKind::Other => 7,
    }
}

/// The number of what a cookie tells.
fn cookie_number(state: CookieState) -> u32
    ensures { result ≡ cookie_number state }
{
    match state {
        CookieState::Absent => 0,
        CookieState::Malformed => 1,
        CookieState::Unknown => 2,
        CookieState::Known => 3,
    }
}
