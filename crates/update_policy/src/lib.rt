//! Who may change what in a zone by dynamic updates (RFC 2136 section 3.3): a table of rules, each about a key, names and
//! types, of which the first that applies decides. Without a rule that grants a change it isn't permitted.
#![tactic(auto)]

mod rule;
mod table;

pub use rule::{Rule, RuleScope};
pub use table::permits;
