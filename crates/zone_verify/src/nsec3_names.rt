//! The names that a chain of NSEC3 sets goes through.
ghost use Rattle.std.specs.Prelude.{◌≡◌, ◌<◌, List, ◌++◌, ◌∷◌, [], Some, map, IfOk, IfSome, OnOk, IsOkUnless, IsTrue, length, option_copied};
ghost use Rattle.std.specs.List.{Contains};
ghost use Rattle.std.specs.Option.{IfNone};
ghost use Rattle.zone_proto.specs.declared.rr_key.RrKey.{RrKey as Key};
ghost use Rattle.zone_proto.specs.Names.{Name as NameLabels, IsAtOrAbove, SharesLabels};
ghost use Rattle.zone_denial.specs.Chains.{is_delegation, may_be_left_out};
ghost use Rattle.zone_denial.specs.Nsec3Zones.{hash_with};
ghost use Rattle.zone_verify.specs.declared.nsec3_name.ChainName.{ChainName as Named};
ghost use Rattle.zone_verify.specs.ChainSets.{sets_of};
ghost use Rattle.zone_verify.specs.Lists.{MayAllBeListed};
ghost use Rattle.zone_verify.specs.Nsec3Names.{AreChainNames, HasAncestors, HasNsec3, IsDeniedIn, IsNamed, IsNsec3Key, StayChainNames};

use crate::delegations::{is_below_dname, is_delegation, is_insecure_delegation};
use crate::fault::{ChainFault, told};
use crate::lists::{Site, check_key, check_list};
use crate::nsec3_name::{ChainName, HashedZone};
use zone_proto::{LowerName, Name, Nsec3Hash, ProtoError, RecordType, RrKey};

/// A name of the zone, with the list of its NSEC3 set; without one where the chain leaves it out.
#[derive(Clone, Copy, Drop)]
struct Denied<'z> {
    site: Site<'z>,
    types: Option<&'z [RecordType]>,
}

impl<'z, H: Nsec3Hash> HashedZone<'z, H> {
    /// The names that have an NSEC3 set among those of these keys, and the empty ones between (RFC 5155 section 7.1).
    ///
    /// # Errors
    ///
    /// Refused for the first name, in canonical order, by `Missing` where it has to have a set, as one does that isn't left out by
    /// opt-out and has no DNAME above, and each name above one with a set; by `Lists` and `Lacks` where its list is wrong; and as
    /// `find` is.
    pub(crate) fn names(&self, keys: &[&'z RrKey]) -> Result<Vec<ChainName<'z>>, ChainFault>
        requires { (k : Key) → Contains (map (λ k. k.now) keys.now) k
            → IsAtOrAbove self.now.origin.now k.name }
        ensures names { IfOk result
            (λ names. AreChainNames self.now.origin.now self.now.sets.records.now
            (sets_of self.now.sets)
            (hash_with (H.digest_of self.now.hash.now) self.now.parameters.now)
            self.now.parameters.now.opt_out
            (map (λ k. k.now) keys.now) names.items) }
        ensures keys { IfOk result
            (λ names. (k : Key) → Contains (map (λ k. k.now) keys.now) k
            → IsNsec3Key self.now.origin.now (sets_of self.now.sets)
            (hash_with (H.digest_of self.now.hash.now) self.now.parameters.now)
            self.now.parameters.now.opt_out
            names.items k) }
    {
        let mut names = Vec::new(self.origin.alloc());
        let mut denied = self.denied_origin(&mut names)?;
        for key in keys {
            let next = self.denied_at(&mut names, denied, key)?;
            if let Some(types) = next.types {
                check_key(&self.sets, &next.site, types, key)?;
            }
            denied = next;
        }
        Ok(names)
    }

    /// Appends the origin to the names.
    fn denied_origin(&self, names: &mut Vec<ChainName<'z>>) -> Result<Denied<'z>, ChainFault>
        requires { names.now.items ≡ [] }
        ensures names { OnOk result
            ((keys : List Key) → AreChainNames self.now.origin.now self.now.sets.records.now
            (sets_of self.now.sets)
            (hash_with (H.digest_of self.now.hash.now) self.now.parameters.now)
            self.now.parameters.now.opt_out
            keys names.new.items) }
        ensures denied { IfOk result
            (IsDeniedIn self.now.origin.now (sets_of self.now.sets)
            (hash_with (H.digest_of self.now.hash.now) self.now.parameters.now)
            self.now.parameters.now.opt_out names.new.items) }
    {
        match self.find(self.origin)? {
            Some(found) => {
                let denied = self.push(names, self.origin, found)?;
                Ok(denied)
            }
            None => Err(ChainFault::Missing(told(self.origin)?, RecordType::NSEC3)),
        }
    }

    /// The name of a key, which may be the last one.
    fn denied_at(
        &self,
        names: &mut Vec<ChainName<'z>>,
        denied: Denied<'z>,
        key: &'z RrKey,
    ) -> Result<Denied<'z>, ChainFault>
        requires names { (keys : List Key)
            × AreChainNames self.now.origin.now self.now.sets.records.now (sets_of self.now.sets)
            (hash_with (H.digest_of self.now.hash.now) self.now.parameters.now)
            self.now.parameters.now.opt_out
            keys names.now.items }
        requires denied { IsDeniedIn self.now.origin.now (sets_of self.now.sets)
            (hash_with (H.digest_of self.now.hash.now) self.now.parameters.now)
            self.now.parameters.now.opt_out names.now.items denied }
        ensures name { IfOk result (λ d. d.site.name.now ≡ key.now.name) }
        ensures denied { IfOk result
            (IsDeniedIn self.now.origin.now (sets_of self.now.sets)
            (hash_with (H.digest_of self.now.hash.now) self.now.parameters.now)
            self.now.parameters.now.opt_out names.new.items) }
        ensures stay { OnOk result
            (StayChainNames self.now.origin.now self.now.sets.records.now (sets_of self.now.sets)
            (hash_with (H.digest_of self.now.hash.now) self.now.parameters.now)
            self.now.parameters.now.opt_out
            key.now.name names.old.items names.new.items) }
        ensures kept { OnOk result
            ((c : Named) → Contains names.old.items c → Contains names.new.items c) }
    {
        if *denied.site.name == key.name {
            return Ok(denied);
        }
        self.denied_name(names, &key.name)
    }

    /// Appends a name to the others, and before it the names above it that are new; or leaves it out, with those above it that have
    /// no set.
    fn denied_name(
        &self,
        names: &mut Vec<ChainName<'z>>,
        name: &'z LowerName,
    ) -> Result<Denied<'z>, ChainFault>
        requires { (keys : List Key)
            × AreChainNames self.now.origin.now self.now.sets.records.now (sets_of self.now.sets)
            (hash_with (H.digest_of self.now.hash.now) self.now.parameters.now)
            self.now.parameters.now.opt_out
            keys names.now.items }
        ensures name { IfOk result (λ d. d.site.name.now ≡ name.now) }
        ensures denied { IfOk result
            (IsDeniedIn self.now.origin.now (sets_of self.now.sets)
            (hash_with (H.digest_of self.now.hash.now) self.now.parameters.now)
            self.now.parameters.now.opt_out names.new.items) }
        ensures stay { OnOk result
            (StayChainNames self.now.origin.now self.now.sets.records.now (sets_of self.now.sets)
            (hash_with (H.digest_of self.now.hash.now) self.now.parameters.now)
            self.now.parameters.now.opt_out
            name.now names.old.items names.new.items) }
        ensures kept { OnOk result
            ((c : Named) → Contains names.old.items c → Contains names.new.items c) }
    {
        let without = self.push_new_ancestors(names, name)?;
        match self.find(name)? {
            Some(found) => {
                if let Some(ancestor) = without {
                    return Err(ChainFault::Missing(Name::from(ancestor), RecordType::NSEC3));
                }
                let denied = self.push(names, name, found)?;
                Ok(denied)
            }
            None if self.may_be_left_out(name)? => Ok(Denied {
                site: self.site(name)?,
                types: None,
            }),
            None => Err(ChainFault::Missing(told(name)?, RecordType::NSEC3)),
        }
    }

    /// Appends the ancestors of a name that aren't at or above the last of these names, from the highest down, as long as they have
    /// sets. They own nothing. Gives the first that has no set, if there is one.
    fn push_new_ancestors(
        &self,
        names: &mut Vec<ChainName<'z>>,
        name: &LowerName,
    ) -> Result<Option<LowerName>, ChainFault>
        requires { (keys : List Key)
            × AreChainNames self.now.origin.now self.now.sets.records.now (sets_of self.now.sets)
            (hash_with (H.digest_of self.now.hash.now) self.now.parameters.now)
            self.now.parameters.now.opt_out
            keys names.now.items }
        ensures all { IfOk result
            (λ without. IfNone without
            (HasAncestors self.now.origin.now names.new.items name.now)) }
        ensures stay { OnOk result
            (StayChainNames self.now.origin.now self.now.sets.records.now (sets_of self.now.sets)
            (hash_with (H.digest_of self.now.hash.now) self.now.parameters.now)
            self.now.parameters.now.opt_out
            name.now names.old.items names.new.items) }
        ensures kept { OnOk result
            ((c : Named) → Contains names.old.items c → Contains names.new.items c) }
    {
        let shared = shared_with_last(names.as_slice(), name);
        for upper in shared..name.num_labels().saturating_sub(1) {
            let ancestor = name.ancestor(upper + 1)?;
            let Some(found) = self.find_empty(&ancestor)? else {
                return Ok(Some(ancestor));
            };
            names.push(found)?;
        }
        Ok(None)
    }

    /// A name that owns nothing, with its set, if it has one. Refused by `Lists` where that lists anything.
    fn find_empty(&self, name: &LowerName) -> Result<Option<ChainName<'z>>, ChainFault>
        ensures name { IfOk result (λ found. IfSome found (λ c. c.name ≡ name.now)) }
        ensures has { IfOk result
            (λ found. IfSome found
            (HasNsec3 self.now.origin.now (sets_of self.now.sets)
            (hash_with (H.digest_of self.now.hash.now) self.now.parameters.now)
            self.now.parameters.now.opt_out)) }
        ensures empty { IfOk result (λ found. IfSome found (λ c. c.data.now.types ≡ [])) }
    {
        let Some(found) = self.find(name)? else {
            return Ok(None);
        };
        match found.data.types.as_slice().first() {
            Some(first) => Err(ChainFault::Lists(told(name)?, RecordType::NSEC3, *first)),
            None => Ok(Some(found)),
        }
    }

    /// Appends a name that owns something to the others.
    fn push(
        &self,
        names: &mut Vec<ChainName<'z>>,
        name: &'z LowerName,
        found: ChainName<'z>,
    ) -> Result<Denied<'z>, ChainFault>
        ensures pushed { OnOk result (names.new.items ≡ names.old.items ++ found.entry ∷ []) }
        ensures name { IfOk result (λ d. d.site.name.now ≡ name.now) }
        ensures delegation { IfOk result
            (λ d. d.site.is_delegation
            ≡ is_delegation self.now.origin.now (sets_of self.now.sets) name.now) }
        ensures types { IfOk result
            (λ d. option_copied d.types ≡ Some found.entry.data.now.types) }
        ensures may { OnOk result
            (MayAllBeListed self.now.sets.records.now (sets_of self.now.sets) name.now
            (is_delegation self.now.origin.now (sets_of self.now.sets) name.now)
            found.entry.data.now.types) }
    {
        let site = self.site(name)?;
        let types = found.data.types.as_slice();
        check_list(&self.sets, &site, types)?;
        names.push(found)?;
        Ok(Denied {
            site,
            types: Some(types),
        })
    }

    /// A name with what is reported about it.
    fn site<'s>(&self, name: &'s LowerName) -> Result<Site<'s>, ChainFault>
        ensures name { IfOk result (λ s. s.name.now ≡ name.now) }
        ensures delegation { IfOk result
            (λ s. s.is_delegation
            ≡ is_delegation self.now.origin.now (sets_of self.now.sets) name.now) }
    {
        Ok(Site {
            name,
            is_delegation: is_delegation(&self.sets, self.origin, name)?,
            denial: RecordType::NSEC3,
        })
    }

    /// Whether the chain may leave a name out (RFC 5155 section 6, RFC 6672 section 2.4).
    fn may_be_left_out(&self, name: &LowerName) -> Result<bool, ChainFault>
        ensures { IfOk result
            (λ may. IsTrue may
            → IsTrue (may_be_left_out self.now.origin.now (sets_of self.now.sets)
            self.now.parameters.now.opt_out name.now)) }
    {
        if is_below_dname(&self.sets, name)? {
            return Ok(true);
        }
        Ok(self.parameters.opt_out && is_insecure_delegation(&self.sets, self.origin, name)?)
    }
}

/// How many labels at its end a name shares with the last of these names: its ancestors with more labels aren't at or above that.
fn shared_with_last(names: &[ChainName<'_>], name: &LowerName) -> usize
    requires { 0 < length names.now }
    ensures { (last : Named) × Contains names.now last × SharesLabels name.now last.name result }
{
    match names.last() {
        Some(last) => name.shared_labels(&last.name),
        None => 0,
    }
}
