//! Data written by themselves, as they are signed and digested (RFC 4034 sections 3.1.8.1 and 5.1.4).
ghost use Rattle.std.specs.Prelude.{◌≡◌, ◌++◌, OnOk, IfErr, ◌⊎◌};
ghost use Rattle.message_writing.specs.PlainText.{plain_text};
ghost use Rattle.message_writing.specs.DataText.{IsWritable};
ghost use Rattle.message_writing.specs.Checks.{HaveTypeNumbers};

use crate::data_writer::{push_dnskey, push_rrsig, push_srv, push_timers};
use crate::denial_writer::{push_nsec, push_nsec3, push_nsec3param};
use crate::error::WriteError;
use crate::name_writer::push_wire;
use crate::numbers::push_short;
use crate::writable::is_writable;
use std::alloc::{AllocError, Global};
use zone_proto::{MX, RData, SOA};

/// Appends the data of a record in wire form to `out`: names are there in full, without pointers, and in the case that
/// they have (RFC 3597 section 4). Refused by `Unwritable` for data that no octets are, and by `Memory`.
pub fn push_plain_data(alloc: Global, out: &mut Vec<u8>, rdata: &RData) -> Result<(), WriteError>
    ensures ok { OnOk result (out.new.items ≡ out.old.items ++ plain_text rdata.now) }
    ensures err { IfErr result
        (λ e. (e ≡ WriteError.Memory) ⊎ ((e ≡ WriteError.Unwritable) × (IsWritable rdata.now →
        ⊥))) }
{
    if !is_writable(alloc, rdata)? {
        return Err(WriteError::Unwritable);
    }
    match push_writable(out, rdata) {
        Ok(()) => Ok(()),
        Err(_) => Err(WriteError::Memory),
    }
}

/// Appends data that octets are.
fn push_writable(out: &mut Vec<u8>, rdata: &RData) -> Result<(), AllocError>
    requires writable { IsWritable rdata.now }
    requires numbers { HaveTypeNumbers rdata.now }
    ensures { OnOk result (out.new.items ≡ out.old.items ++ plain_text rdata.now) }
{
    match rdata {
        RData::A(address) => out.extend_from_slice(address),
        RData::AAAA(address) => out.extend_from_slice(address),
        RData::NS(name) | RData::CNAME(name) | RData::ANAME(name) => push_wire(out, name.labels()),
        RData::SOA(soa) => push_soa(out, soa),
        RData::MX(mx) => push_mx(out, mx),
        RData::SRV(srv) => push_srv(out, srv),
        RData::DNSKEY(key) => push_dnskey(out, key),
        RData::NSEC(nsec) => push_nsec(out, nsec),
        RData::NSEC3(nsec3) => push_nsec3(out, nsec3),
        RData::NSEC3PARAM(param) => push_nsec3param(out, param),
        RData::RRSIG(rrsig) => push_rrsig(out, rrsig),
        RData::Other(other) => out.extend_from_slice(other.octets()),
    }
}

/// Appends the data of an SOA record (RFC 1035 section 3.3.13).
fn push_soa(out: &mut Vec<u8>, soa: &SOA) -> Result<(), AllocError>
    ensures { OnOk result (out.new.items ≡ out.old.items ++ plain_text (RData.SOA soa.now)) }
{
    push_wire(out, soa.mname.labels())?;
    push_wire(out, soa.rname.labels())?;
    push_timers(out, soa)
}

/// Appends the data of an MX record (RFC 1035 section 3.3.9).
fn push_mx(out: &mut Vec<u8>, mx: &MX) -> Result<(), AllocError>
    ensures { OnOk result (out.new.items ≡ out.old.items ++ plain_text (RData.MX mx.now)) }
{
    push_short(out, mx.preference)?;
    push_wire(out, mx.exchange.labels())
}
