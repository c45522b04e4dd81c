//! Tables of rules, of each zone one.
ghost use Rattle.std.specs.Prelude.{◌≡◌, true, false, is_some, OnErr, OnOk};
ghost use Rattle.std.specs.Map.{lookup};
ghost use Rattle.message_tsig.specs.Keys.{are_same};
ghost use Rattle.held_updates.specs.Tables.{AreSameRules, HasRuleMore};

use std::alloc::{AllocError, Global};
use std::collections::BTreeMap;
use update_policy::Rule;
use zone_proto::LowerName;

/// Adds a rule of the zone of an origin, behind those that it has. Where memory is refused no rule changes.
pub(crate) fn add_rule(
    alloc: Global,
    tables: &mut BTreeMap<LowerName, Vec<Rule>>,
    origin: LowerName,
    rule: Rule,
) -> Result<(), AllocError>
    ensures added { OnOk result (HasRuleMore origin rule tables.old.entries tables.new.entries) }
    ensures same { OnErr result (AreSameRules tables.old.entries tables.new.entries) }
{
    if tables.contains_key(&origin) {
        push_rule(tables, &origin, rule)
    } else {
        put_table(alloc, tables, origin, rule)
    }
}

/// Adds a rule to the table of a zone that has one.
fn push_rule(
    tables: &mut BTreeMap<LowerName, Vec<Rule>>,
    origin: &LowerName,
    rule: Rule,
) -> Result<(), AllocError>
    requires { is_some (lookup (are_same origin.now) tables.old.entries) ≡ true }
    ensures added { OnOk result
        (HasRuleMore origin.now rule tables.old.entries tables.new.entries) }
    ensures same { OnErr result (AreSameRules tables.old.entries tables.new.entries) }
{
    match tables.get_mut(origin) {
        Some(rules) => {
            rules.push(rule)?;
            Ok(())
        }
        None => Err(AllocError),
    }
}

/// Puts a table with a rule among the others, for a zone that has none.
#[tactic(auto, using(crate::proofs::Rules::unput))]
fn put_table(
    alloc: Global,
    tables: &mut BTreeMap<LowerName, Vec<Rule>>,
    origin: LowerName,
    rule: Rule,
) -> Result<(), AllocError>
    requires { is_some (lookup (are_same origin) tables.old.entries) ≡ false }
    ensures added { OnOk result (HasRuleMore origin rule tables.old.entries tables.new.entries) }
    ensures same { OnErr result (AreSameRules tables.old.entries tables.new.entries) }
{
    let mut rules = Vec::new(alloc);
    rules.push(rule)?;
    match tables.insert(origin, rules) {
        Ok(_) => Ok(()),
        Err(_) => Err(AllocError),
    }
}
