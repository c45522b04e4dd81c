//! The addresses of the hosts that records name: those that go beside an answer, and glue.
ghost use Rattle.std.specs.Prelude.{◌≡◌, ◌++◌, [], Bool, Some, true, map, flat_map, IfOk, IfSome, OnOk, IsOkUnless, option_copied, option_map, option_to_list};
ghost use Rattle.std.specs.List.{cons_option};
ghost use Rattle.zone_proto.specs.Names.{lower, name_eq, is_at_or_above};
ghost use Rattle.zone_lookup.specs.Runs.{with_new};
ghost use Rattle.zone_response.specs.Additional.{host_of, with_host, hosts, addresses, host_sets, diverted_host, beside, glue, glue_of, sibling_glue, sibling_sets};
ghost use Rattle.zone_response.specs.Sections.{as_it_is, sent_sets};
ghost use Rattle.zone_response.specs.NodeSets.{IsFromSome};
ghost use Rattle.zone_proto.specs.Types.{A};
ghost use Rattle.zone_response.specs.Descent.{diversion_at, diversion_of};

use crate::cursor::sets_near;
use crate::descent::{Diverting, diversion_above, own_cut};
use crate::lists::{lend, push};
use crate::names::{has_name, is_at_or_above};
use crate::node_sets::{NodeSets, node_sets_in, read_node_sets};
use crate::response::{Part, Sent};
use crate::steps::{Asked, part_for};
use zone_lookup::InnerInMemory;
use zone_map::SetRange;
use zone_proto::{
    LowerName, Name, ProtoError, RData, Record, RecordSet, RecordType, RrKey, Signer,
};

// Of how many records of a set the hosts are looked up: more would make a small query cost many lookups.
const MAX_RECORDS: usize = 64;

/// The host that data name.
fn host_of(rdata: &RData) -> Option<&Name>
    ensures { option_map (λ n. lower n.now) result ≡ host_of rdata.now }
{
    match rdata {
        RData::NS(server) => Some(server),
        RData::MX(mx) => Some(&mx.exchange),
        RData::SRV(srv) => Some(&srv.target),
        _ => None,
    }
}

/// The hosts that the first records of a set name, each once.
fn hosts(set: &RecordSet) -> Result<Vec<LowerName>, ProtoError>
    ensures ok { IfOk result (λ names. names.items ≡ hosts set.now) }
    ensures err { IsOkUnless result ProtoError.Memory }
{
    let mut names = Vec::new(set.name().alloc());
    let mut left = MAX_RECORDS;
    for naming in set.records_without_rrsigs() {
        if left == 0 {
            return Ok(names);
        }
        left -= 1;
        add_host(&mut names, naming)?;
    }
    Ok(names)
}

/// Puts the host last that a record names, unless the list has it.
fn add_host(names: &mut Vec<LowerName>, naming: &Record) -> Result<(), ProtoError>
    ensures ok { OnOk result (names.new.items ≡ with_host names.old.items naming.now) }
    ensures err { IsOkUnless result ProtoError.Memory }
{
    match host_of(&naming.rdata) {
        Some(host) => add_new(names, LowerName::new(host)?),
        None => Ok(()),
    }
}

/// Puts a name last, unless the list has it.
fn add_new(names: &mut Vec<LowerName>, name: LowerName) -> Result<(), ProtoError>
    ensures ok { OnOk result (names.new.items ≡ with_new name_eq names.old.items name) }
    ensures err { IsOkUnless result ProtoError.Memory }
{
    if has_name(names, &name) {
        return Ok(());
    }
    push(names, name)
}

/// Puts the addresses last that a name owns.
fn send_addresses<'z, S: Signer>(
    inner: &'z InnerInMemory<S>,
    name: &LowerName,
    part: Part,
    list: &mut Vec<Sent<'z>>,
) -> Result<(), ProtoError>
    ensures ok { OnOk result
        (sent_sets list.new
        ≡ sent_sets list.old ++ map (as_it_is part) (addresses inner.now.records name.now)) }
    ensures err { IsOkUnless result ProtoError.Memory }
{
    let key = RrKey::first_of(name)?;
    let here = read_node_sets(inner, &key, RecordType::A, RecordType::AAAA);
    send_standing(here, part, list)
}

/// Puts the addresses last that are at a name.
fn send_standing<'z>(
    here: NodeSets<'z>,
    part: Part,
    list: &mut Vec<Sent<'z>>,
) -> Result<(), ProtoError>
    ensures ok { OnOk result
        (sent_sets list.new
        ≡ sent_sets list.old
        ++ map (as_it_is part)
        (cons_option (option_copied here.entry.first_asked)
        (cons_option (option_copied here.entry.second_asked) []))) }
    ensures err { IsOkUnless result ProtoError.Memory }
{
    send_set(here.first_asked, part, list)?;
    send_set(here.second_asked, part, list)
}

/// Puts a set last, if there is one.
fn send_set<'z>(
    set: Option<&'z RecordSet>,
    part: Part,
    list: &mut Vec<Sent<'z>>,
) -> Result<(), ProtoError>
    ensures ok { OnOk result
        (sent_sets list.new
        ≡ sent_sets list.old
        ++ map (as_it_is part) (option_to_list (option_copied set.entry))) }
    ensures err { IsOkUnless result ProtoError.Memory }
{
    match set {
        Some(set) => lend(list, set, part),
        None => Ok(()),
    }
}

/// Puts the addresses of a host last, if it is one of the zone; `below` says whether they go also where the host is at
/// a zone cut or below it.
fn send_host<'z, S: Signer>(
    inner: &'z InnerInMemory<S>,
    origin: &LowerName,
    signed: bool,
    below: bool,
    host: &LowerName,
    list: &mut Vec<Sent<'z>>,
) -> Result<(), ProtoError>
    ensures ok { OnOk result
        (sent_sets list.new
        ≡ sent_sets list.old ++ host_sets origin.now inner.now.records signed below host.now) }
    ensures err { IsOkUnless result ProtoError.Memory }
{
    if !is_at_or_above(origin, host) {
        return Ok(());
    }
    match diversion_above(inner, origin, host)? {
        Some(turning) => send_diverted(inner, below, host, turning, list),
        None => send_undiverted(inner, origin, signed, below, host, list),
    }
}

/// Puts the addresses of a host of the zone last, by what is above it.
fn send_diverted<'z, S: Signer>(
    inner: &'z InnerInMemory<S>,
    below: bool,
    host: &LowerName,
    turning: Diverting<'z>,
    list: &mut Vec<Sent<'z>>,
) -> Result<(), ProtoError>
    ensures ok { (signed : Bool)
        → OnOk result
        (sent_sets list.new
        ≡ sent_sets list.old
        ++ diverted_host inner.now.records signed below host.now (Some (diversion_of
        turning.entry))) }
    ensures err { IsOkUnless result ProtoError.Memory }
{
    match turning {
        Diverting::Cut(_) => {
            if below {
                return send_addresses(inner, host, Part::Records, list);
            }
            Ok(())
        }
        Diverting::Renaming(_) => Ok(()),
    }
}

/// Puts the addresses of a host of the zone last above which nothing turns: it may be a zone cut itself.
fn send_undiverted<'z, S: Signer>(
    inner: &'z InnerInMemory<S>,
    origin: &LowerName,
    signed: bool,
    below: bool,
    host: &LowerName,
    list: &mut Vec<Sent<'z>>,
) -> Result<(), ProtoError>
    requires { is_at_or_above origin.now host.now ≡ true }
    ensures ok { OnOk result
        (sent_sets list.new
        ≡ sent_sets list.old
        ++ diverted_host inner.now.records signed below host.now
        (diversion_at origin.now inner.now.records host.now A host.now)) }
    ensures err { IsOkUnless result ProtoError.Memory }
{
    let key = RrKey::first_of(host)?;
    let here = read_node_sets(inner, &key, RecordType::A, RecordType::AAAA);
    match own_cut(here.ns, origin, host, RecordType::A) {
        None => send_standing(here, part_for(signed), list),
        Some(_) => {
            if below {
                return send_standing(here, Part::Records, list);
            }
            Ok(())
        }
    }
}

/// Puts the sets last that go beside the last set of an answer.
pub(crate) fn send_beside<'z, S: Signer>(
    inner: &'z InnerInMemory<S>,
    origin: &LowerName,
    signed: bool,
    set: &RecordSet,
    list: &mut Vec<Sent<'z>>,
) -> Result<(), ProtoError>
    ensures ok { OnOk result
        (sent_sets list.new
        ≡ sent_sets list.old ++ beside origin.now inner.now.records signed set.now) }
    ensures err { IsOkUnless result ProtoError.Memory }
{
    let below = set.record_type() == RecordType::NS;
    send_hosts(inner, origin, signed, below, hosts(set)?, list)
}

/// Puts the addresses of hosts last.
fn send_hosts<'z, S: Signer>(
    inner: &'z InnerInMemory<S>,
    origin: &LowerName,
    signed: bool,
    below: bool,
    hosts: Vec<LowerName>,
    list: &mut Vec<Sent<'z>>,
) -> Result<(), ProtoError>
    ensures ok { OnOk result
        (sent_sets list.new
        ≡ sent_sets list.old
        ++ flat_map (host_sets origin.now inner.now.records signed below) hosts.items) }
    ensures err { IsOkUnless result ProtoError.Memory }
{
    for host in hosts {
        send_host(inner, origin, signed, below, &host, list)?;
    }
    Ok(())
}

/// Puts the addresses of a child's servers last: of those that are in the child to `own`, and of the others, as far as
/// the zone has them elsewhere, to `siblings`.
pub(crate) fn send_servers<'z, S: Signer>(
    inner: &'z InnerInMemory<S>,
    asked: Asked<'_>,
    cut: &RecordSet,
    siblings: &mut Vec<Sent<'z>>,
    own: &mut Vec<Sent<'z>>,
) -> Result<(), ProtoError>
    ensures siblings { OnOk result
        (sent_sets siblings.new
        ≡ sent_sets siblings.old
        ++ sibling_glue asked.entry.origin.now inner.now.records asked.entry.signed cut.now) }
    ensures own { OnOk result
        (sent_sets own.new ≡ sent_sets own.old ++ glue inner.now.records cut.now) }
    ensures err { IsOkUnless result ProtoError.Memory }
{
    let child = LowerName::new(cut.name())?;
    let mut near = None;
    for host in hosts(cut)? {
        near = send_server(inner, asked, &child, &host, near, siblings, own)?;
    }
    Ok(())
}

/// Puts the addresses of a child's server last. `near` are the sets of the zone from the server on that is in the child
/// and was read last, if one was; gives those for the next server.
fn send_server<'z, S: Signer>(
    inner: &'z InnerInMemory<S>,
    asked: Asked<'_>,
    child: &LowerName,
    host: &LowerName,
    near: Option<SetRange<'z>>,
    siblings: &mut Vec<Sent<'z>>,
    own: &mut Vec<Sent<'z>>,
) -> Result<Option<SetRange<'z>>, ProtoError>
    requires { IfSome near (IsFromSome inner.now.records) }
    ensures siblings { OnOk result
        (sent_sets siblings.new
        ≡ sent_sets siblings.old
        ++ sibling_sets asked.entry.origin.now inner.now.records asked.entry.signed child.now
        host.now) }
    ensures own { OnOk result
        (sent_sets own.new
        ≡ sent_sets own.old ++ glue_of inner.now.records child.now host.now) }
    ensures near { IfOk result (λ near. IfSome near (IsFromSome inner.now.records)) }
    ensures err { IsOkUnless result ProtoError.Memory }
{
    if is_at_or_above(child, host) {
        return Ok(Some(send_own(inner, near, host, own)?));
    }
    send_host(inner, asked.origin, asked.signed, true, host, siblings)?;
    Ok(near)
}

/// Puts the addresses of a server in the child last, and gives the sets of the zone from this server on.
fn send_own<'z, S: Signer>(
    inner: &'z InnerInMemory<S>,
    near: Option<SetRange<'z>>,
    host: &LowerName,
    list: &mut Vec<Sent<'z>>,
) -> Result<SetRange<'z>, ProtoError>
    requires { IfSome near (IsFromSome inner.now.records) }
    ensures ok { OnOk result
        (sent_sets list.new
        ≡ sent_sets list.old
        ++ map (as_it_is Part.Records) (addresses inner.now.records host.now)) }
    ensures near { IfOk result (IsFromSome inner.now.records) }
    ensures err { IsOkUnless result ProtoError.Memory }
{
    let key = RrKey::first_of(host)?;
    let sets = inner.as_map();
    let from = sets_near(sets, near, &key)?;
    let here = node_sets_in(sets, from.clone()?, &key, RecordType::A, RecordType::AAAA);
    send_standing(here, Part::Records, list)?;
    Ok(from)
}
