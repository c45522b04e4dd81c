//! The keys of a server, and who may change what in its zones.
ghost use Rattle.std.specs.Prelude.{◌≡◌, [], IfErr, IfOk, OnErr, OnOk};
ghost use Rattle.key_files.specs.Entries.{ReportsFault};
ghost use Rattle.held_transfers.specs.Accesses.{has_key, ReadsKeys};
ghost use Rattle.held_updates.specs.Tables.{rules_for, AreSameRules, HasRuleMore};

use crate::tables::add_rule;
use held_transfers::TransferAccess;
use key_files::KeyFileError;
use message_tsig::Key;
use std::alloc::{AllocError, Global};
use std::collections::BTreeMap;
use update_policy::Rule;
use zone_proto::LowerName;

/// The keys that a server shares with others, and what those who have them may change: nothing, in a zone of which no rule says it.
#[derive(Drop)]
pub struct UpdateAccess {
    /// The keys. Of keys of one name and algorithm the first counts.
    pub keys: Vec<Key>,
    /// The rules of each zone, under its origin. The first that is about a key, a name and a type decides.
    pub tables: BTreeMap<LowerName, Vec<Rule>>,
}

impl UpdateAccess {
    /// The keys of a text, as [`TransferAccess::read`] reads them; no zone has a rule yet. The first fault of the text refuses it, with its
    /// place, and so does want of memory.
    pub fn read(alloc: Global, text: &[u8]) -> Result<UpdateAccess, KeyFileError>
        ensures keys { IfOk result (λ access. ReadsKeys text.now access.keys.items) }
        ensures tables { IfOk result (λ access. access.tables.entries ≡ []) }
        ensures fault { IfErr result (ReportsFault text.now) }
    {
        let TransferAccess { keys, .. } = TransferAccess::read(alloc, text)?;
        Ok(UpdateAccess {
            keys,
            tables: BTreeMap::new(alloc),
        })
    }

    /// Whether there is a key of a name. Takes no memory.
    pub fn has_key(&self, name: &LowerName) -> bool
        ensures { result ≡ has_key name.now self.now.keys.items }
    {
        self.keys.iter().any(|key| key.name == *name)
    }

    /// Adds a rule of the zone of an origin, behind those that it has. Fails only for lack of memory, and then no rule changes.
    pub fn add_rule(
        &mut self,
        alloc: Global,
        origin: LowerName,
        rule: Rule,
    ) -> Result<(), AllocError>
        ensures keys { self.new.keys ≡ self.old.keys }
        ensures added { OnOk result
            (HasRuleMore origin rule self.old.tables.entries self.new.tables.entries) }
        ensures same { OnErr result
            (AreSameRules self.old.tables.entries self.new.tables.entries) }
    {
        add_rule(alloc, &mut self.tables, origin, rule)
    }

    /// The rules of the zone of an origin, in their order. Takes no memory.
    pub fn rules_for(&self, origin: &LowerName) -> &[Rule]
        ensures { result.now ≡ rules_for origin.now self.now.tables.entries }
    {
        match self.tables.get(origin) {
            Some(rules) => rules.as_slice(),
            None => &[],
        }
    }
}
