//! The path of a query: its name, and the names that its aliases lead on to.
ghost use Rattle.std.specs.Prelude.{◌≡◌, ◌+◌, ◌≤◌, IfOk, IsOkUnless};
ghost use Rattle.zone_response.specs.Paths.{path, path_of};
ghost use Rattle.zone_proto.specs.Types.{SOA, DNAME};
ghost use Rattle.zone_response.specs.Queries.{inquiry_of};
ghost use Rattle.zone_response.specs.NodeSets.{StandsAt};
ghost use Rattle.zone_response.specs.Searches.{most_for_path};

use crate::dname_repeats::unless_answered;
use crate::lists::push;
use crate::names::has_name;
use crate::node_sets::NodeSets;
use crate::response::Sent;
use crate::steps::{Asked, End, Next, SoFar, step};
use lookup_types::LookupError;
use zone_lookup::{InnerInMemory, MAX_CHAIN};
use zone_map::Counter;
use zone_proto::{LowerName, Signer};

/// What a search has found.
#[derive(Drop)]
pub(crate) struct Path<'z> {
    /// The sets of the answer section.
    pub(crate) answers: Vec<Sent<'z>>,
    /// The names for which a wildcard answered.
    pub(crate) made: Vec<LowerName>,
    /// How it ends.
    pub(crate) end: End<'z>,
}

/// The path from a name, by what is at the zone's origin. It counts the searches for its names. Its only error is `Memory`.
pub(crate) fn walk<'z, S: Signer>(
    inner: &'z InnerInMemory<S>,
    asked: Asked<'_>,
    apex: NodeSets<'z>,
    name: &LowerName,
    searches: &mut Counter,
) -> Result<Path<'z>, LookupError>
    requires { StandsAt inner.now.records asked.origin.now SOA DNAME apex }
    ensures ok { IfOk result
        (λ found. path_of found ≡ path (inquiry_of S.signature_of asked.entry inner.now) name.now) }
    ensures counted { searches.new
        ≤ searches.old
        + most_for_path (inquiry_of S.signature_of asked.entry inner.now) name.now }
    ensures err { IsOkUnless result LookupError.Memory }
{
    let alloc = name.alloc();
    let mut so_far = SoFar {
        answers: Vec::new(alloc),
        made: Vec::new(alloc),
    };
    let mut seen = Vec::new(alloc);
    let mut name = name.clone()?;
    for _count in 0..MAX_CHAIN {
        if has_name(&seen, &name) {
            return Ok(ended(so_far, End::Unfollowed));
        }
        let next = step(inner, asked, apex, &name, &mut so_far, searches)?;
        match unless_answered(next, asked.record_type, &so_far.answers)? {
            Next::On(target) => {
                push(&mut seen, name)?;
                name = target;
            }
            Next::Ends(end) => return Ok(ended(so_far, end)),
        }
    }
    Ok(ended(so_far, End::Unfollowed))
}

/// A path with its end.
fn ended<'z>(so_far: SoFar<'z>, end: End<'z>) -> Path<'z>
    ensures answers { result.answers ≡ so_far.entry.answers }
    ensures made { result.made ≡ so_far.entry.made }
    ensures end { result.end ≡ end.entry }
{
    let SoFar { answers, made } = so_far;
    Path { answers, made, end }
}
