//! The table of rules.
ghost use Rattle.std.specs.Prelude.{◌≡◌, option_copied};
ghost use Rattle.update_policy.specs.Policies.{is_about, is_about_name, is_about_type, is_name, is_withheld, names_type, permits, permits_requestor};
ghost use Rattle.std.specs.List.{list_any};
ghost use Rattle.zone_proto.specs.Names.{is_at_or_above};

use crate::rule::{Rule, RuleScope};
use zone_proto::{LowerName, RecordType, is_derived};

/// Whether the owner of a key may change the set of a name and a type: the first rule that is about all three says so. What no rule is
/// about isn't permitted, and nothing is without a key (RFC 2136 section 3.3). Doesn't allocate.
pub fn permits(
    rules: &[Rule],
    key: Option<&LowerName>,
    name: &LowerName,
    record_type: RecordType,
) -> bool
    ensures { result
        ≡ permits_requestor rules.now (option_copied key.entry) name.now record_type.0 }
{
    match key {
        None => false,
        Some(key) => permits_key(rules, key, name, record_type),
    }
}

/// What the first rule says that is about a key, a name and a type.
fn permits_key(rules: &[Rule], key: &LowerName, name: &LowerName, record_type: RecordType) -> bool
    ensures { result ≡ permits rules.now key.now name.now record_type.0 }
{
    for rule in rules {
        if is_about(rule, key, name, record_type) {
            return rule.grants;
        }
    }
    false
}

/// Whether a rule is about a key, a name and a type.
fn is_about(rule: &Rule, key: &LowerName, name: &LowerName, record_type: RecordType) -> bool
    ensures { result ≡ is_about rule.now key.now name.now record_type.0 }
{
    rule.key == *key
        && is_about_name(rule.scope, &rule.name, key, name)
        && is_about_type(rule.types.as_slice(), record_type)
}

/// Whether a rule is about a name, by its scope.
fn is_about_name(scope: RuleScope, own: &LowerName, key: &LowerName, name: &LowerName) -> bool
    ensures { result ≡ is_about_name scope own.now key.now name.now }
{
    match scope {
        RuleScope::Name => *own == *name,
        RuleScope::Subdomain => is_at_or_above(own, name),
        RuleScope::OwnName => *key == *name,
        RuleScope::OwnSubdomain => is_at_or_above(key, name),
    }
}

/// Whether a name is another one, or above it.
fn is_at_or_above(above: &LowerName, name: &LowerName) -> bool
    ensures { result ≡ is_at_or_above above.now name.now }
{
    above.zone_of(name)
}

/// Whether these types have a type.
fn is_about_type(types: &[RecordType], record_type: RecordType) -> bool
    ensures { result ≡ is_about_type types.now record_type.0 }
{
    if types.is_empty() {
        return !is_withheld(record_type);
    }
    has_type(types, record_type) && !is_derived(record_type)
}

/// Whether one of these types is a type, or ANY.
fn has_type(types: &[RecordType], record_type: RecordType) -> bool
    ensures { result ≡ list_any (names_type record_type.0) types.now }
{
    types.iter().any(|named| named.0 == record_type.0 || *named == RecordType::ANY)
}

/// Whether a rule without types isn't about a type.
fn is_withheld(record_type: RecordType) -> bool
    ensures { result ≡ is_withheld record_type.0 }
{
    record_type == RecordType::SOA || record_type == RecordType::NS || is_derived(record_type)
}
