//! The state of a secondary zone.
ghost use Rattle.std.specs.Prelude.{◌≡◌};
ghost use Rattle.zone_secondary.specs.States.{again_later, asked, at_once, confirmed, empty, expired, failed_by, first_question, is_expired_in, is_known, is_over, is_served_in, kept, notified, poll_in, poll_of, polled, wait_to_retry};
ghost use Rattle.zone_secondary.specs.Waits.{later};

use crate::version::Version;
use std::marker::Model;
use zone_proto::is_newer;

/// How long a secondary waits before it asks again where it holds no zone, in seconds.
const FIRST_WAIT: u64 = 60;

/// A question to the primary.
#[derive(Clone, Copy, PartialEq, Eq, Debug)]
pub enum Question {
    /// The SOA record of the zone.
    Soa,
    /// The changes since the version of this serial: IXFR (RFC 1995), which may be answered with the whole zone.
    Changes(u32),
    /// The whole zone: AXFR (RFC 5936).
    Zone,
}

/// The question that goes out next.
#[derive(Clone, Copy, PartialEq, Eq, Debug)]
pub struct Due {
    /// The question.
    pub question: Question,
    /// The first moment at which it may go out, in seconds since 1970.
    pub from: u64,
}

/// What the serial of the primary says.
#[derive(Clone, Copy, PartialEq, Eq, Debug)]
pub enum Poll {
    /// The primary has a newer version than the one that is held, which is to be asked for; or none is held.
    Newer,
    /// It has the version that is held.
    Same,
    /// It has an older version (RFC 1982), which isn't taken.
    Older,
}

/// The version that is held.
#[derive(Clone, Copy, PartialEq, Eq, Debug)]
pub(crate) struct Held {
    pub version: Version,
    /// The moment at which it was the primary's for the last time.
    pub confirmed: u64,
}

/// The state of a secondary zone: the version that is held, and the question that goes out next.
#[derive(Clone, Copy, PartialEq, Eq, Debug)]
pub struct Secondary {
    held: Option<Held>,
    due: Due,
}

impl Model for Secondary {
    ghost use Rattle.zone_secondary.specs.States.{State};

    ghost Value = { State };

    ghost view = { λ s. record { held = s.held; due = s.due } };

    ghost inverse = { λ s. record { held = s.held; due = s.due } };
}

impl Secondary {
    /// The state of a secondary that holds no zone: it asks for it now.
    pub fn new(now: u64) -> Secondary
        ensures { result ≡ empty now }
    {
        Secondary {
            held: None,
            due: Due {
                question: Question::Zone,
                from: now,
            },
        }
    }

    /// The state of a secondary that holds a zone from before, as from a disk, which was the primary's at the moment `confirmed` for the last
    /// time: it asks for the SOA record now. The zone may have expired meanwhile.
    pub fn with_zone(version: Version, confirmed: u64, now: u64) -> Secondary
        ensures { result ≡ kept version confirmed now }
    {
        Secondary {
            held: Some(Held { version, confirmed }),
            due: Due {
                question: Question::Soa,
                from: now,
            },
        }
    }

    /// The question that goes out next, and when.
    pub fn due(&self) -> Due
        ensures { result ≡ self.now.due }
    {
        self.due
    }

    /// Says that the question that was due went out. Unless something comes of it, it is due again when the retry interval is over.
    pub fn ask(&mut self, now: u64)
        ensures { self.new ≡ asked self.old now }
    {
        let from = later(now, wait_to_retry(self.held));
        self.due.from = from;
    }

    /// Says that a NOTIFY came (RFC 1996), with the serial that its hint has, if there is one: the secondary asks now, unless it holds the
    /// version of this serial.
    pub fn notify(&mut self, hint: Option<u32>, now: u64)
        ensures { self.new ≡ notified self.old hint now }
    {
        if is_known(self.held, hint) {
            return;
        }
        let from = self.due.from.min(now);
        self.due = Due {
            question: first_question(self.held),
            from,
        };
    }

    /// Says which serial the SOA record of the primary has. A newer one (RFC 1982) makes the changes due now; the same one confirms the zone
    /// that is held, and the next question is due when the refresh interval is over; an older one is as if the question had failed.
    pub fn poll(&mut self, serial: u32, now: u64) -> Poll
        ensures state { self.new ≡ polled self.old self.old.held serial now }
        ensures poll { result ≡ poll_in self.old.held serial }
    {
        let Some(held) = self.held else {
            self.ask_now(Question::Zone, now);
            return Poll::Newer;
        };
        let poll = poll_of(serial, held.version);
        match poll {
            Poll::Newer => self.ask_now(Question::Changes(held.version.serial), now),
            Poll::Same => *self = confirmed(held.version, now),
            Poll::Older => self.ask_later(now),
        }
        poll
    }

    /// Says that a transfer gave a version of the zone, which is held from now on; or that it said that the version that is held is the
    /// primary's. The next question is due when its refresh interval is over.
    pub fn transferred(&mut self, version: Version, now: u64)
        ensures { self.new ≡ confirmed version now }
    {
        *self = confirmed(version, now);
    }

    /// Says that nothing came of the question that was due: it was refused, or what came was wrong. Where it was for the changes, the whole
    /// zone is due now; otherwise the first question is due when the retry interval is over. What is held stays.
    pub fn fail(&mut self, now: u64)
        ensures { self.new ≡ failed_by self.old self.old.due.question now }
    {
        match self.due.question {
            Question::Changes(_) => self.ask_now(Question::Zone, now),
            Question::Soa | Question::Zone => self.ask_later(now),
        }
    }

    /// Whether the zone may be served: one is held, and hasn't expired. Otherwise queries for it are answered SERVFAIL.
    pub fn serves(&self, now: u64) -> bool
        ensures { result ≡ is_served_in self.now.held now }
    {
        match self.held {
            None => false,
            Some(held) => !is_over(held, now),
        }
    }

    /// Lets the zone go that is held, if it has expired: the whole zone is asked for then. The result says whether it has.
    pub fn expire(&mut self, now: u64) -> bool
        ensures state { self.new ≡ expired self.old now }
        ensures expired { result ≡ is_expired_in self.old.held now }
    {
        if !is_expired(self.held, now) {
            return false;
        }
        self.held = None;
        self.due.question = Question::Zone;
        true
    }

    /// Makes a question due now.
    fn ask_now(&mut self, question: Question, now: u64)
        ensures { self.new ≡ at_once self.old question now }
    {
        self.due = Due {
            question,
            from: now,
        };
    }

    /// Makes the first question due when the retry interval is over.
    fn ask_later(&mut self, now: u64)
        ensures { self.new ≡ again_later self.old now }
    {
        let from = later(now, wait_to_retry(self.held));
        self.due = Due {
            question: first_question(self.held),
            from,
        };
    }
}

/// The state of a secondary that holds a version which is the primary's now.
fn confirmed(version: Version, now: u64) -> Secondary
    ensures { result ≡ confirmed version now }
{
    Secondary {
        held: Some(Held {
            version,
            confirmed: now,
        }),
        due: Due {
            question: Question::Soa,
            from: later(now, version.refresh_wait()),
        },
    }
}

/// The first question of a secondary.
fn first_question(held: Option<Held>) -> Question
    ensures { result ≡ first_question held }
{
    match held {
        None => Question::Zone,
        Some(_) => Question::Soa,
    }
}

/// How long a secondary waits where a question failed.
fn wait_to_retry(held: Option<Held>) -> u64
    ensures { result ≡ wait_to_retry held }
{
    match held {
        None => FIRST_WAIT,
        Some(held) => held.version.retry_wait(),
    }
}

/// Whether the hint of a NOTIFY is the serial of the version that is held.
fn is_known(held: Option<Held>, hint: Option<u32>) -> bool
    ensures { result ≡ is_known held hint }
{
    match (held, hint) {
        (Some(held), Some(serial)) => serial == held.version.serial,
        _ => false,
    }
}

/// What a serial of the primary says of a version that is held.
fn poll_of(serial: u32, version: Version) -> Poll
    ensures { result ≡ poll_of serial version }
{
    if serial == version.serial {
        Poll::Same
    } else if is_newer(serial, version.serial) {
        Poll::Newer
    } else {
        Poll::Older
    }
}

/// Whether the zone that is held has expired.
fn is_expired(held: Option<Held>, now: u64) -> bool
    ensures { result ≡ is_expired_in held now }
{
    match held {
        None => false,
        Some(held) => is_over(held, now),
    }
}

/// Whether the expire interval of a version is over.
fn is_over(held: Held, now: u64) -> bool
    ensures { result ≡ is_over held now }
{
    later(held.confirmed, u64::from(held.version.expire)) <= now
}

/// The moment so many seconds later; moments end at 2^64 - 1.
fn later(now: u64, seconds: u64) -> u64
    ensures { result ≡ later now seconds }
{
    now.saturating_add(seconds)
}
