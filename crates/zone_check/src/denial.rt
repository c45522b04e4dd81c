//! What a zone denies by, and what is reported about that.
ghost use Rattle.std.specs.Prelude.{◌≡◌, ◌≤◌, None, IfOk, IfSome, IsOkUnless, option_copied};
ghost use Rattle.zone_map.specs.Zones.{IsZone};
ghost use Rattle.zone_database.specs.Zones.{denial_kind};
ghost use Rattle.zone_response.specs.Queries.{Zone};
ghost use Rattle.response_laws.specs.ProvedSayings.{IsUnreferred};
ghost use Rattle.zone_check.specs.Denials.{DeniesRightly, IsReported, first_announced, served};

use host_texts::tell_at;
use std::fmt;
use std::io::Write;
use zone_builder::{Loaded, denial_kind};
use zone_proto::{NSEC3PARAM, NxProofKind, ProtoError, RData, RecordType, RrKey};
use zone_sha1::Sha1Hash;
use zone_texts::Sources;
use zone_verify::{ChainFault, verify_nsec, verify_nsec3};

/// What a zone denies by.
#[derive(Clone, Copy)]
pub enum Denial {
    /// Nothing: it has no sets of denial.
    Nothing,
    /// NSEC sets that are a closed chain (RFC 4034 section 4).
    NsecChain,
    /// NSEC3 sets that are a closed chain (RFC 5155).
    Nsec3Chain,
    /// Sets that aren't.
    Open,
}

impl Denial {
    /// The status for a zone that denies so.
    pub fn status(self) -> u8
        ensures status { result ≤ 1 }
        ensures closed { (z : Zone) → result ≡ 0 → IsReported z self → DeniesRightly z }
    {
        match self {
            Denial::Open => 1,
            Denial::Nothing | Denial::NsecChain | Denial::Nsec3Chain => 0,
        }
    }
}

impl fmt::Display for Denial {
    fn fmt<W: fmt::Write>(&self, f: &mut fmt::Formatter<W>) -> fmt::Result {
        f.write_str(match self {
            Denial::Nothing => "no denials",
            Denial::NsecChain => "a closed chain of NSEC",
            Denial::Nsec3Chain => "a closed chain of NSEC3",
            Denial::Open => "denials that are no closed chain",
        })
    }
}

/// Tells what is wrong with the sets of denial of a zone, and gives by what it denies; none if there isn't enough
/// memory.
///
/// The result is right for the zone that a server makes of what was loaded: where a chain is found closed, it is the
/// one by which that zone denies, and the zone meets the premises of the laws about what a response proves.
pub fn tell_denial<E: Write>(sources: &Sources, loaded: &Loaded, fault: &mut E) -> Option<Denial>
    requires zone { IsZone loaded.now.records }
    requires top { IsUnreferred (served loaded.now) }
    ensures { IfSome result (IsReported (served loaded.now)) }
{
    match denial_of(loaded) {
        Ok(denial) => Some(denial),
        Err(ChainFault::Memory) => None,
        Err(found) => {
            tell_at(fault, sources, None, &found);
            Some(Denial::Open)
        }
    }
}

/// By what a zone denies. Refused where its sets of denial are no chain, and by `Memory`.
fn denial_of(loaded: &Loaded) -> Result<Denial, ChainFault>
    requires zone { IsZone loaded.now.records }
    requires top { IsUnreferred (served loaded.now) }
    ensures { IfOk result (IsReported (served loaded.now)) }
{
    match denial_kind(&loaded.records, &loaded.origin, &Sha1Hash)? {
        Some(NxProofKind::Nsec) => {
            verify_nsec(&loaded.records, &loaded.origin)?;
            Ok(Denial::NsecChain)
        }
        Some(
            NxProofKind::Nsec3 {
                algorithm,
                salt,
                iterations,
                opt_out,
            },
        ) => {
            let parameters = NSEC3PARAM {
                algorithm,
                salt,
                iterations,
                opt_out,
            };
            verify_nsec3(&loaded.records, &loaded.origin, &Sha1Hash, &parameters)?;
            Ok(Denial::Nsec3Chain)
        }
        None => no_chain(loaded),
    }
}

/// No denials, where nothing at the origin says by what a zone denies. Refused where sets of denial stand all the
/// same, and by `Memory`.
fn no_chain(loaded: &Loaded) -> Result<Denial, ChainFault>
    requires zone { IsZone loaded.now.records }
    requires kind { denial_kind loaded.now.origin loaded.now.records ≡ None }
    ensures { IfOk result (IsReported (served loaded.now)) }
{
    if !loaded.records.is_without(RecordType::NSEC) {
        verify_nsec(&loaded.records, &loaded.origin)?;
        return Ok(Denial::NsecChain);
    }
    if loaded.records.is_without(RecordType::NSEC3) {
        return Ok(Denial::Nothing);
    }
    match announced(loaded)? {
        Some(parameters) => {
            verify_nsec3(&loaded.records, &loaded.origin, &Sha1Hash, parameters)?;
            Ok(Denial::Nsec3Chain)
        }
        None => Err(ChainFault::NoParameters),
    }
}

/// The parameters of the first NSEC3PARAM record of the origin. Its only error is `Memory`.
fn announced(loaded: &Loaded) -> Result<Option<&NSEC3PARAM>, ProtoError>
    ensures ok { IfOk result
        (λ found. option_copied found
        ≡ first_announced loaded.now.origin loaded.now.records) }
    ensures err { IsOkUnless result ProtoError.Memory }
{
    let key = RrKey::new(loaded.origin.clone()?, RecordType::NSEC3PARAM);
    let Some(set) = loaded.records.get(&key) else {
        return Ok(None);
    };
    match set.as_slice().first() {
        Some(record) => match &record.rdata {
            RData::NSEC3PARAM(parameters) => Ok(Some(parameters)),
            _ => Ok(None),
        },
        None => Ok(None),
    }
}
