//! A list of zones, which are found by an ordered map of their origins.
ghost use Rattle.std.specs.Prelude.{◌≡◌, cond, IfOk, OnOk, Some, None};
ghost use Rattle.std.specs.BTreeMap.{get, IsOrdered};
ghost use Rattle.std.specs.Option.{option_or};
ghost use Rattle.zone_proto.specs.Names.{Name, name_cmp, name_eq};
ghost use Rattle.zone_response.specs.Queries.{zone_of};
ghost use Rattle.zone_server.specs.ListedZones.{AreFirstPlaces};

use crate::zones::ServedZones;
use std::alloc::{AllocError, Global};
use std::collections::BTreeMap;
use std::marker::Model;
use zone_origins::nearest;
use zone_proto::{LowerName, Nsec3Hash, Signer};
use zone_response::ServedZone;

/// Zones in an order, of which the nearest to a name answers (RFC 1034 section 4.3.2 step 2); of those with one origin
/// it is the first. They are found by a map of their origins, so how long that takes grows with the logarithm of how
/// many there are.
///
/// Contracts see them as a list.
#[derive(Drop)]
pub struct ListedZones<'z, S: Signer, H: Nsec3Hash> {
    zones: Vec<ServedZone<'z, S, H>>,
    /// The index of the first zone of each origin.
    places: BTreeMap<LowerName, usize>,
}

impl<'z, S: Signer, H: Nsec3Hash> Model for ListedZones<'z, S, H> {
    ghost use Rattle.std.specs.Prelude.{List};
    ghost use Rattle.zone_response.specs.declared.question.ServedZone.{ServedZone as Served};
    ghost use Rattle.zone_server.specs.ListedZones.{AreFirstPlaces};

    ghost Value = { List (Served S H) };

    ghost view = { λ l. l.zones.items };

    ghost invariant = { λ l. AreFirstPlaces l.zones.items l.places };
}

impl<'z, S: Signer, H: Nsec3Hash> ListedZones<'z, S, H> {
    ghost use Rattle.std.specs.Prelude.{◌≡◌, IfOk, None, Some, MatchOption, slice_index_or};
    ghost use Rattle.zone_server.specs.ListedZones.{place_of, origins};

    /// These zones, in this order. Several may have one origin. Fails only for lack of memory.
    pub fn new(
        alloc: Global,
        zones: Vec<ServedZone<'z, S, H>>,
    ) -> Result<ListedZones<'z, S, H>, AllocError>
        ensures { IfOk result (λ listed. listed ≡ zones.entry.items) }
    {
        let places = first_places(alloc, zones.as_slice())?;
        Ok(ListedZones { zones, places })
    }

    /// The first zone of an origin, and its index in the list; None if no zone has it. Doesn't allocate.
    pub(crate) fn at(&self, origin: &LowerName) -> Option<(usize, &ServedZone<'z, S, H>)>
        ensures { MatchOption result (place_of (origins self.now) origin.now ≡ None)
            (λ found. (place_of (origins self.now) origin.now ≡ Some found.0)
            × (found.1.now ≡ slice_index_or self.now found.0 found.1.now)) }
    {
        let place = *self.places.get(origin)?;
        Some((place, &self.zones[place]))
    }
}

impl<'z, S: Signer, H: Nsec3Hash> ServedZones for ListedZones<'z, S, H> {
    ghost use Rattle.std.specs.Prelude.{map};
    ghost use Rattle.zone_response.specs.Queries.{zone_of};

    type Signer = S;

    type Hash = H;

    ghost zones = { λ zs. map (zone_of S.signature_of H.digest_of) zs };

    fn nearest(&self, name: &LowerName) -> Result<Option<ServedZone<'_, S, H>>, AllocError> {
        match nearest(&self.places, name)? {
            Some((_, place)) => Ok(Some(lent(&self.zones[*place]))),
            None => Ok(None),
        }
    }
}

/// The index of the first zone of each origin. Fails only for lack of memory.
fn first_places<S: Signer, H: Nsec3Hash>(
    alloc: Global,
    zones: &[ServedZone<'_, S, H>],
) -> Result<BTreeMap<LowerName, usize>, AllocError>
    ensures { IfOk result (AreFirstPlaces zones.now) }
{
    let mut places = BTreeMap::new(alloc);
    for (place, zone) in zones.iter().enumerate() {
        put_first(&mut places, zone.origin, place)?;
    }
    Ok(places)
}

/// Puts an index under an origin, unless there is one. Fails only for lack of memory.
fn put_first(
    places: &mut BTreeMap<LowerName, usize>,
    origin: &LowerName,
    place: usize,
) -> Result<(), AllocError>
    ensures ordered { OnOk result (IsOrdered name_cmp places.old → IsOrdered name_cmp places.new) }
    ensures put { OnOk result ((x : Name)
        → get name_cmp places.new x ≡ option_or (get name_cmp places.old x)
        (cond (name_eq origin.now x) (Some place) None)) }
{
    if places.contains_key(origin) {
        return Ok(());
    }
    let Ok(origin) = origin.clone() else {
        return Err(AllocError);
    };
    places.insert(origin, place)?;
    Ok(())
}

/// The same zone.
fn lent<'s, S: Signer, H: Nsec3Hash>(zone: &'s ServedZone<'_, S, H>) -> ServedZone<'s, S, H>
    ensures { zone_of S.signature_of H.digest_of result
        ≡ zone_of S.signature_of H.digest_of zone.now }
{
    ServedZone {
        origin: zone.origin,
        inner: zone.inner,
        denials: zone.denials,
        nx_proof_kind: zone.nx_proof_kind,
        hash: zone.hash,
        moment: zone.moment,
    }
}
