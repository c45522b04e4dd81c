//! Rules of who may change what in which zone by updates (RFC 2136 section 3.3), as a text says them: in each line one, which begins with `update`.
//!
//! `update ORIGIN grant|deny KEY name|subdomain NAME [TYPE..]` is a rule of the zone of ORIGIN, about who has the key KEY (TSIG, RFC 8945), the name NAME,
//! or that and all names below it, and these types, of which ANY is each; with no types it is about each but SOA and NS. With `self` or `selfsub` in place
//! of the last two words before the types the name is that of the key. The first rule of a zone that is about a key, a name and a type decides.
//!
//! Blanks separate words: spaces, tabs and carriage returns. A word between quotes may have some. What follows `#` on a line is a comment. A name is in its
//! text form (RFC 1035 section 5.1), and a final dot may be left out; a type is its word, in any case, or `TYPE` and its number (RFC 3597 section 5). The
//! journal of a zone is a file that is named after its origin, which therefore has letters, digits, hyphens and underscores alone.
#![tactic(auto)]

mod fault;
mod reading;
mod rule;
mod target;
mod words;

pub use fault::{RuleFault, RuleReason, RulesError};
pub use reading::{PlacedRule, read_rules};
pub use zone_scanner::Place;
