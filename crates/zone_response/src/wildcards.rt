//! The source of synthesis of a name that doesn't exist (RFC 4592 section 3.3.1).
ghost use Rattle.std.specs.Prelude.{◌≡◌, ◌+◌, ◌≤◌, IfOk, IsOkUnless};
ghost use Rattle.zone_response.specs.Searches.{most_for_wildcard};
ghost use Rattle.zone_response.specs.Wildcards.{source_of_synthesis};

use crate::neighbours::existing_labels;
use zone_lookup::InnerInMemory;
use zone_map::Counter;
use zone_proto::{LowerName, ProtoError, RecordType, RrKey, Signer};

/// The wildcard at the closest encloser of a name, which has `*` in place of the first label of the next closer name.
/// Where the parent doesn't exist, the sets next to it tell which of its ancestors may: so three more searches find the one
/// that does, however many labels the name has, unless sets of denial alone are below it. It counts the searches.
pub(crate) fn source_of_synthesis<S: Signer>(
    inner: &InnerInMemory<S>,
    name: &LowerName,
    searches: &mut Counter,
) -> Result<Option<LowerName>, ProtoError>
    ensures wildcard { IfOk result
        (λ wildcard. wildcard ≡ source_of_synthesis inner.now.records name.now) }
    ensures counted { searches.new
        ≤ searches.old + most_for_wildcard inner.now.records name.now }
    ensures err { IsOkUnless result ProtoError.Memory }
{
    if name.is_root() {
        return Ok(None);
    }
    let mut above = RrKey::first_of(name)?;
    above.name.shorten();
    loop {
        searches.add_one();
        if inner.exists(&above) {
            let next_closer = name.ancestor(above.name.num_labels() + 1)?;
            return Ok(Some(next_closer.into_wildcard()));
        }
        if above.name.is_root() {
            return Ok(None);
        }
        let labels = existing_labels(inner, &above, searches);
        above = RrKey::new(above.name.ancestor(labels)?, RecordType(0));
    }
}
