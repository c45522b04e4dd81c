//! The rules by which updates are taken.
ghost use Rattle.std.specs.Prelude.{◌≡◌, OnOk};
ghost use Rattle.zoned.specs.Rules.{HasRulesMore};

use crate::keyed::refuse_keys;
use held_updates::UpdateAccess;
use host_texts::{read_file, tell};
use std::alloc::{AllocError, Global};
use std::io::Write;
use update_rules::{Place, PlacedRule, RulesError, read_rules};
use zone_database::ZoneDatabase;

/// Why the rules of a file aren't those of zones that are served.
#[derive(Clone, Copy, PartialEq, Eq, Debug)]
enum RulesFault {
    /// The key that is named at this place isn't there.
    NoKey(Place),
    /// No zone of the origin that is named at this place is served.
    NoZone(Place),
    /// A growth that the allocator refused.
    Memory,
}

/// Want of memory is `Memory`.
impl From<AllocError> for RulesFault {
    ghost use Rattle.zoned.specs.declared.rules.RulesFault.TheVariants.{Memory};

    ghost from_gives = { λ _ e. e ≡ Memory };

    fn from(_: AllocError) -> RulesFault {
        RulesFault::Memory
    }
}

/// The keys of the text of a file, and what those who have them may change by the rules of another. None if one of them isn't of the form of such a
/// file, or a rule is about a key or a zone that isn't there; why is told.
pub fn ruled_access<E: Write>(
    rt: &HostRuntime,
    alloc: Global,
    keys: &str,
    text: &[u8],
    rules: &str,
    zones: &ZoneDatabase,
    fault: &mut E,
) -> Option<UpdateAccess> {
    let mut access = match UpdateAccess::read(alloc, text) {
        Ok(access) => access,
        Err(error) => return refuse_keys(keys, error, fault),
    };
    let mut said = Vec::new(alloc);
    read_file(rt, rules, &mut said, fault)?;
    let read = read_placed(alloc, rules, said.as_slice(), fault)?;
    match add_rules(alloc, &mut access, zones, read) {
        Ok(()) => Some(access),
        Err(found) => refuse_rules(rules, found, fault),
    }
}

/// The rules of the text of a file. None if it isn't one of rules; why is told.
fn read_placed<E: Write>(
    alloc: Global,
    file: &str,
    text: &[u8],
    fault: &mut E,
) -> Option<Vec<PlacedRule>> {
    match read_rules(alloc, text) {
        Ok(rules) => Some(rules),
        Err(RulesError::Memory) => {
            tell(fault, b"out of memory\n");
            None
        }
        Err(RulesError::Fault(found)) => {
            let _ = write!(fault, "{file}:{found}\n");
            None
        }
    }
}

/// Tells why rules aren't taken.
fn refuse_rules<T, E: Write>(file: &str, found: RulesFault, fault: &mut E) -> Option<T> {
    match found {
        RulesFault::Memory => {
            tell(fault, b"out of memory\n");
        }
        RulesFault::NoKey(Place { line, column }) => {
            let _ = write!(fault, "{file}:{line}:{column}: there is no such key\n");
        }
        RulesFault::NoZone(Place { line, column }) => {
            let _ = write!(
                fault,
                "{file}:{line}:{column}: no zone of this origin is served\n"
            );
        }
    }
    None
}

/// Adds rules to those of their zones, which are among these, in their order. Refused for the first of which the key or the zone isn't there.
#[tactic(auto, using(crate::proofs::Ruled::one_more, crate::proofs::Ruled::none_more))]
fn add_rules(
    alloc: Global,
    access: &mut UpdateAccess,
    zones: &ZoneDatabase,
    rules: Vec<PlacedRule>,
) -> Result<(), RulesFault>
    ensures keys { access.new.keys ≡ access.old.keys }
    ensures added { OnOk result (HasRulesMore rules.items
        access.old.tables.entries access.new.tables.entries) }
{
    for placed in rules {
        let PlacedRule {
            origin,
            rule,
            origin_place,
            key_place,
        } = placed;
        if !access.has_key(&rule.key) {
            return Err(RulesFault::NoKey(key_place));
        }
        if !zones.contains(&origin) {
            return Err(RulesFault::NoZone(origin_place));
        }
        access.add_rule(alloc, origin, rule)?;
    }
    Ok(())
}
