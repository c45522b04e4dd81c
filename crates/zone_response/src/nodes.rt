//! What a name, or the wildcard at the closest encloser of one, has for a query of a type.
ghost use Rattle.std.specs.Prelude.{◌≡◌, ◌+◌, ◌≤◌, IfOk, IsOkUnless, option_copied, option_and_then};
ghost use Rattle.zone_map.specs.AnyTypes.{any_type};
ghost use Rattle.zone_map.specs.Zones.{set_at};
ghost use Rattle.zone_proto.specs.Types.{CNAME};
ghost use Rattle.zone_response.specs.Nodes.{at_node, asked_set, stand_in_set, if_signed, node_of};
ghost use Rattle.zone_response.specs.NodeSets.{StandsAt};

use crate::node_sets::NodeSets;
use crate::query_types::asks_any;
use crate::response::is_signed;
use lookup_types::LookupError;
use zone_lookup::InnerInMemory;
use zone_map::Counter;
use zone_map::direct::is_address;
use zone_proto::{RecordSet, RecordType, RrKey, Signer};

/// What a name has for a query.
#[derive(Clone, Copy)]
pub(crate) enum Node<'z> {
    /// The set that is asked for.
    Own(&'z RecordSet),
    /// An alias to be followed.
    Alias(&'z RecordSet),
    /// An ANAME set, whose target's addresses are asked for.
    StandIn(&'z RecordSet),
    /// No set.
    Nothing,
}

/// What the key's name has for a query of a type; the key's own type is of no account. `here` has the sets of that type
/// and of CNAME that are there. Further searches are counted. Its only error is `Memory`.
pub(crate) fn at_node<'z, S: Signer>(
    inner: &'z InnerInMemory<S>,
    key: &mut RrKey,
    record_type: RecordType,
    here: NodeSets<'z>,
    searches: &mut Counter,
) -> Result<Node<'z>, LookupError>
    requires { StandsAt inner.now.records key.old.name record_type.0 CNAME here }
    ensures node { IfOk result
        (λ node. node_of node ≡ at_node inner.now.records key.old.name record_type.0) }
    ensures counted { searches.new ≤ searches.old + 3 }
    ensures err { IsOkUnless result LookupError.Memory }
    ensures same { key.new.name ≡ key.old.name }
{
    if let Some(set) = asked_set(inner, key, record_type, here.first_asked, searches)? {
        return Ok(Node::Own(set));
    }
    if let Some(set) = here.second_asked {
        return Ok(Node::Alias(set));
    }
    match stand_in_set(inner, key, record_type, searches) {
        Some(set) => Ok(Node::StandIn(set)),
        None => Ok(Node::Nothing),
    }
}

/// The set that is asked for, where `own` is that of the type at the key's name.
fn asked_set<'z, S: Signer>(
    inner: &'z InnerInMemory<S>,
    key: &mut RrKey,
    record_type: RecordType,
    own: Option<&'z RecordSet>,
    searches: &mut Counter,
) -> Result<Option<&'z RecordSet>, LookupError>
    requires { option_copied own ≡ set_at inner.now.records key.old.name record_type.0 }
    ensures set { IfOk result
        (λ set. option_copied set ≡ asked_set inner.now.records key.old.name record_type.0) }
    ensures counted { searches.new ≤ searches.old + 2 }
    ensures err { IsOkUnless result LookupError.Memory }
    ensures same { key.new.name ≡ key.old.name }
{
    if record_type == RecordType::NSEC3 {
        return Ok(None);
    }
    if asks_any(record_type) {
        return any_set(inner, key, record_type, searches);
    }
    Ok(own)
}

/// The set that is chosen for a query of ANY, and for one of RRSIG.
fn any_set<'z, S: Signer>(
    inner: &'z InnerInMemory<S>,
    key: &mut RrKey,
    record_type: RecordType,
    searches: &mut Counter,
) -> Result<Option<&'z RecordSet>, LookupError>
    ensures set { IfOk result
        (λ set. option_copied set
        ≡ option_and_then (if_signed record_type.0)
        (set_at inner.now.records key.old.name (any_type inner.now.records key.old.name))) }
    ensures counted { searches.new ≤ searches.old + 2 }
    ensures err { IsOkUnless result LookupError.Memory }
    ensures same { key.new.name ≡ key.old.name }
{
    searches.add_one();
    key.record_type = inner.replace_any(&key.name)?;
    searches.add_one();
    match inner.get(key) {
        Some(set) => Ok(if_signed(record_type, set)),
        None => Ok(None),
    }
}

/// Of a set, what is sent for a query of RRSIG are its signatures, if it has any.
fn if_signed(record_type: RecordType, set: &RecordSet) -> Option<&RecordSet>
    ensures { option_copied result ≡ if_signed record_type.0 set.now }
{
    if record_type == RecordType::RRSIG && !is_signed(set) {
        return None;
    }
    Some(set)
}

/// The ANAME set that stands in for addresses.
fn stand_in_set<'z, S: Signer>(
    inner: &'z InnerInMemory<S>,
    key: &mut RrKey,
    record_type: RecordType,
    searches: &mut Counter,
) -> Option<&'z RecordSet>
    ensures set { option_copied result
        ≡ stand_in_set inner.now.records key.old.name record_type.0 }
    ensures counted { searches.new ≤ searches.old + 1 }
    ensures same { key.new.name ≡ key.old.name }
{
    if !is_address(record_type) {
        return None;
    }
    key.record_type = RecordType::ANAME;
    searches.add_one();
    inner.get(key)
}
