//! The sets of the record map with new signatures, in place.
ghost use Rattle.std.specs.Prelude.{◌≡◌, ◌∷◌, ◌++◌, List, Option, drop};
ghost use Rattle.std.specs.Vec.Iter.{into_iter_items};
ghost use Rattle.zone_proto.specs.declared.record.Record.{Record as Signature};
ghost use Rattle.zone_map.specs.Renewals.{with_signatures, stepped_under, IsHanded, AreHanded};
ghost use Rattle.zone_map.specs.Zones.{IsZone};

use crate::record_map::RecordMap;
use std::vec::IntoIter;
use zone_frozen::SetMap;
use zone_proto::{RecordSet, RrKey, Rrsigs};

impl RecordMap {
    /// Puts signatures in place of those that the sets have, in the order of the keys: the caller hands in a list for
    /// each set, or none for one that has as many signatures as it gets, which are exchanged with the next ones of
    /// `exchanged`. The set under `apex` has its serial stepped as [`RecordSet::step_serial`] says. Doesn't allocate.
    pub fn renew(&mut self, apex: &RrKey, lists: Vec<Option<Rrsigs>>, exchanged: Rrsigs)
        requires { (made : List (List Signature)) × AreHanded self.old made lists.items exchanged }
        ensures sets { (made : List (List Signature))
            → AreHanded self.old made lists.items exchanged
            → self.new ≡ stepped_under apex.now (with_signatures self.old made) }
        ensures zone { IsZone self.new }
    {
        put_signatures(&mut self.sets, lists, exchanged);
        // One lookup waits for fewer keys, which stand elsewhere in memory, than a pass that asks each.
        self.sets.step_serial(apex);
    }
}

/// Puts signatures in place of those that sets have, in the order of the keys, of which none is looked at.
fn put_signatures(sets: &mut SetMap, lists: Vec<Option<Rrsigs>>, mut exchanged: Rrsigs)
    ensures { (made : List (List Signature)) → AreHanded sets.old made lists.items exchanged
        → sets.new ≡ with_signatures sets.old made }
{
    let mut left = lists.into_iter();
    let mut next = 0;
    sets.retain(|_, set| {
        put_next(set, &mut left, &mut exchanged, &mut next);
        true
    });
}

/// Puts the next signatures in place of those that a set has.
fn put_next(
    set: &mut RecordSet,
    left: &mut IntoIter<Option<Rrsigs>>,
    exchanged: &mut Rrsigs,
    next: &mut usize,
)
    ensures { (signatures part rest : List Signature) (list : Option (List Signature))
        (lists : List (Option (List Signature)))
        → into_iter_items left.old ≡ list ∷ lists → drop next.old exchanged.old ≡ part ++ rest
        → IsHanded set.old signatures list part
        → (set.new ≡ record set.old { signatures = signatures })
        × (into_iter_items left.new ≡ lists) × (drop next.new exchanged.new ≡ rest) }
{
    match left.next() {
        Some(Some(list)) => set.replace_rrsigs(list),
        Some(None) => *next = set.exchange_rrsigs(exchanged, *next),
        None => {}
    }
}
