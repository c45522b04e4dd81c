//! A record set that a search found, lent from the zone or made for the answer.
ghost use Rattle.std.specs.Prelude.{◌≡◌, IfOk, IsOkUnless};
ghost use Rattle.zone_lookup.specs.FoundSets.{found_set, outcome_found};

use lookup_types::LookupError;
use zone_proto::RecordSet;

/// A record set that a search found in a zone.
#[derive(Drop)]
pub enum Found<'z> {
    /// A set of the zone, lent.
    Stored(&'z RecordSet),
    /// A set that the search made from one of the zone.
    Made(RecordSet),
}

impl<'z> Found<'z> {
    /// The set.
    pub fn set(&self) -> &RecordSet
        ensures { result.now ≡ found_set self.now }
    {
        match self {
            Found::Stored(set) => set,
            Found::Made(set) => set,
        }
    }

    /// The set itself: a lent one is copied, a made one is handed out. Its only error is `Memory`.
    pub fn into_set(self) -> Result<RecordSet, LookupError>
        ensures ok { IfOk result (λ set. set ≡ found_set self.entry) }
        ensures err { IsOkUnless result LookupError.Memory }
    {
        match self {
            Found::Stored(set) => Ok(set.clone()?),
            Found::Made(set) => Ok(set),
        }
    }
}

/// What is found in a zone for a name and a type: no user of a zone needs it.
#[doc(hidden)]
#[derive(Drop)]
pub enum Outcome<'z> {
    /// The set that was found.
    Found(Found<'z>),
    /// No set, though the name exists, or the wildcard at its closest encloser does.
    NoData,
    /// No set, where neither is so.
    NoName,
}

impl<'z> Outcome<'z> {
    /// The set that was found.
    pub(crate) fn into_found(self) -> Option<Found<'z>>
        ensures { result ≡ outcome_found self.entry }
    {
        match self {
            Outcome::Found(found) => Some(found),
            Outcome::NoData | Outcome::NoName => None,
        }
    }
}
