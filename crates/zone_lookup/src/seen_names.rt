//! The names that a run has searched.
ghost use Rattle.std.specs.Prelude.{◌≡◌, ◌∷◌, ◌++◌, [], OnOk, IsOkUnless};
ghost use Rattle.std.specs.List.{list_any};
ghost use Rattle.zone_proto.specs.Names.{name_eq};
ghost use Rattle.zone_lookup.specs.SeenNames.{AreSameNames};

use crate::chain::push;
use std::collections::BTreeSet;
use std::marker::Model;
use zone_proto::{LowerName, ProtoError};

// So many names are kept as they come: to ask few one by one is quickest.
const LIST_LIMIT: usize = 16;

/// The names that a run has searched. Nearly all runs have few; to ask many takes as long as to look one up in order.
pub(crate) struct SeenNames {
    few: Vec<LowerName>,
    others: BTreeSet<LowerName>,
}

/// A call of its own, so that the proofs of all that drop the names don't go into its parts.
impl Drop for SeenNames {
    fn drop(self) {
        let SeenNames { few: _, others: _ } = self;
    }
}

impl Model for SeenNames {
    ghost use Rattle.std.specs.Prelude.{List, ◌++◌};
    ghost use Rattle.zone_proto.specs.Names.{Name};

    ghost Value = { List Name };

    ghost view = { λ seen. seen.few.items ++ seen.others.keys };
}

impl SeenNames {
    /// These names. Doesn't allocate.
    pub(crate) fn new(names: Vec<LowerName>) -> SeenNames
        ensures { result ≡ names.items }
    {
        let others = BTreeSet::new(*names.allocator());
        SeenNames { few: names, others }
    }

    /// Whether a name is one of them.
    pub(crate) fn contains(&self, name: &LowerName) -> bool
        ensures { result ≡ list_any (name_eq name.now) self.now }
    {
        self.few.contains(name) || self.others.contains(name)
    }

    /// Puts a name among them. Fails only for lack of memory.
    pub(crate) fn push(&mut self, name: LowerName) -> Result<(), ProtoError>
        ensures ok { OnOk result (AreSameNames self.new (self.old ++ name ∷ [])) }
        ensures err { IsOkUnless result ProtoError.Memory }
    {
        if self.few.len() < LIST_LIMIT {
            return push(&mut self.few, name);
        }
        self.others.insert(name)?;
        Ok(())
    }
}
