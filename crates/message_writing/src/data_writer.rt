//! Data written into a message, by their type.
ghost use Rattle.std.specs.Prelude.{◌≡◌, ◌≤◌, ◌++◌, OnOk, length};
ghost use Rattle.std.specs.Int.{cast_unsigned, w32};
ghost use Rattle.zone_proto.specs.Names.{IsName};
ghost use Rattle.message_writing.specs.Checks.{HaveTypeNumbers};
ghost use Rattle.message_writing.specs.DataText.{AreCuts, AreShort, AreTimers, IsSound, IsWritable, data_text, dnskey_text, fixed_text, long_text, name_text, rrsig_text, short_text, srv_text, timers_text};

use crate::denial_writer::{push_nsec, push_nsec3, push_nsec3param};
use crate::fingerprints::Fingerprint;
use crate::hints::Hints;
use crate::name_writer::{Cut, cut_of, push_cut, push_wire};
use crate::numbers::{push_long, push_short};
use std::alloc::AllocError;
use zone_proto::{DNSKEY, MX, RData, RRSIG, SOA, SRV};

/// How the two names that data may have are cut.
#[derive(Clone, Copy, PartialEq, Eq, Debug)]
pub(crate) struct DataCuts {
    pub(crate) first: Cut,
    pub(crate) second: Cut,
}

/// No name: a cut that is of none.
const WHOLE: Cut = Cut {
    labels: 0,
    pointer: None,
    fingerprint: Fingerprint::OF_ROOT,
};

/// The cuts of data in which no name may have a pointer.
pub(crate) const NO_CUTS: DataCuts = DataCuts {
    first: WHOLE,
    second: WHOLE,
};

/// Where the names of data are cut that may have pointers: those in the types of RFC 1035, and in no other (RFC 3597 section 4).
pub(crate) fn data_cuts(out: &[u8], hints: &Hints, rdata: &RData) -> DataCuts
    ensures { AreCuts out.now result.first result.second rdata.now }
{
    match rdata {
        RData::NS(name) | RData::CNAME(name) => DataCuts {
            first: cut_of(out, hints, name.labels()),
            second: WHOLE,
        },
        RData::MX(mx) => DataCuts {
            first: cut_of(out, hints, mx.exchange.labels()),
            second: WHOLE,
        },
        RData::SOA(soa) => DataCuts {
            first: cut_of(out, hints, soa.mname.labels()),
            second: cut_of(out, hints, soa.rname.labels()),
        },
        _ => NO_CUTS,
    }
}

/// Appends data.
pub(crate) fn push_data(out: &mut Vec<u8>, cuts: DataCuts, rdata: &RData) -> Result<(), AllocError>
    requires short { AreShort cuts.first cuts.second }
    requires writable { IsWritable rdata.now }
    requires numbers { HaveTypeNumbers rdata.now }
    ensures text { OnOk result (out.new.items
        ≡ out.old.items ++ data_text cuts.first cuts.second rdata.now) }
    ensures sound { OnOk result (IsSound rdata.now) }
{
    match rdata {
        RData::A(address) => out.extend_from_slice(address),
        RData::AAAA(address) => out.extend_from_slice(address),
        RData::NS(name) | RData::CNAME(name) => push_cut(out, cuts.first, name.labels()),
        RData::ANAME(name) => push_wire(out, name.labels()),
        RData::SOA(soa) => push_soa(out, cuts, soa),
        RData::MX(mx) => push_mx(out, cuts.first, mx),
        RData::SRV(srv) => push_srv(out, srv),
        RData::DNSKEY(key) => push_dnskey(out, key),
        RData::NSEC(nsec) => push_nsec(out, nsec),
        RData::NSEC3(nsec3) => push_nsec3(out, nsec3),
        RData::NSEC3PARAM(param) => push_nsec3param(out, param),
        RData::RRSIG(rrsig) => push_rrsig(out, rrsig),
        RData::Other(other) => out.extend_from_slice(other.octets()),
    }
}

/// Appends the data of an SOA record (RFC 1035 section 3.3.13).
fn push_soa(out: &mut Vec<u8>, cuts: DataCuts, soa: &SOA) -> Result<(), AllocError>
    requires { AreShort cuts.first cuts.second }
    ensures text { OnOk result (out.new.items
        ≡ out.old.items ++ (name_text cuts.first soa.now.mname
        ++ (name_text cuts.second soa.now.rname ++ timers_text soa.now))) }
    ensures timers { OnOk result (AreTimers soa.now) }
{
    push_cut(out, cuts.first, soa.mname.labels())?;
    push_cut(out, cuts.second, soa.rname.labels())?;
    push_timers(out, soa)?;
    Ok(())
}

/// Appends the numbers of an SOA record.
pub(crate) fn push_timers(out: &mut Vec<u8>, soa: &SOA) -> Result<(), AllocError>
    ensures text { OnOk result (out.new.items ≡ out.old.items ++ timers_text soa.now) }
    ensures timers { OnOk result (AreTimers soa.now) }
{
    push_long(out, soa.serial)?;
    push_timer(out, soa.refresh)?;
    push_timer(out, soa.retry)?;
    push_timer(out, soa.expire)?;
    push_long(out, soa.minimum)?;
    Ok(())
}

/// Appends a signed number of 32 bits, in two's complement.
fn push_timer(out: &mut Vec<u8>, timer: i32) -> Result<(), AllocError>
    ensures { OnOk result (out.new.items
        ≡ out.old.items ++ long_text (cast_unsigned w32 timer)) }
{
    push_long(out, timer.cast_unsigned())?;
    Ok(())
}

/// Appends the data of an MX record (RFC 1035 section 3.3.9).
fn push_mx(out: &mut Vec<u8>, cut: Cut, mx: &MX) -> Result<(), AllocError>
    requires { AreShort cut cut }
    ensures { OnOk result (out.new.items
        ≡ out.old.items ++ (short_text mx.now.preference ++ name_text cut mx.now.exchange)) }
{
    push_short(out, mx.preference)?;
    push_cut(out, cut, mx.exchange.labels())
}

/// Appends the data of an SRV record, whose name has no pointers (RFC 2782; RFC 3597 section 4).
pub(crate) fn push_srv(out: &mut Vec<u8>, srv: &SRV) -> Result<(), AllocError>
    ensures text { OnOk result (out.new.items ≡ out.old.items ++ srv_text srv.now) }
    ensures name { OnOk result (IsName srv.now.target) }
{
    push_short(out, srv.priority)?;
    push_short(out, srv.weight)?;
    push_short(out, srv.port)?;
    push_wire(out, srv.target.labels())
}

/// Appends the data of a DNSKEY record (RFC 4034 section 2.1).
pub(crate) fn push_dnskey(out: &mut Vec<u8>, key: &DNSKEY) -> Result<(), AllocError>
    ensures { OnOk result (out.new.items ≡ out.old.items ++ dnskey_text key.now) }
{
    push_short(out, key.flags)?;
    out.push(key.protocol)?;
    out.push(key.algorithm)?;
    out.extend_from_slice(key.public_key.as_slice())
}

/// Appends the data of an RRSIG record (RFC 4034 section 3.1).
pub(crate) fn push_rrsig(out: &mut Vec<u8>, rrsig: &RRSIG) -> Result<(), AllocError>
    ensures text { OnOk result (out.new.items ≡ out.old.items ++ rrsig_text rrsig.now) }
    ensures name { OnOk result (IsName rrsig.now.signer_name) }
{
    push_fixed(out, rrsig)?;
    push_wire(out, rrsig.signer_name.labels())?;
    out.extend_from_slice(rrsig.signature.as_slice())
}

/// Appends the numbers of a signature.
fn push_fixed(out: &mut Vec<u8>, rrsig: &RRSIG) -> Result<(), AllocError>
    ensures { OnOk result (out.new.items ≡ out.old.items ++ fixed_text rrsig.now) }
{
    push_short(out, rrsig.type_covered.0)?;
    out.push(rrsig.algorithm)?;
    out.push(rrsig.num_labels)?;
    push_long(out, rrsig.original_ttl)?;
    push_long(out, rrsig.expiration)?;
    push_long(out, rrsig.inception)?;
    push_short(out, rrsig.key_tag)
}
