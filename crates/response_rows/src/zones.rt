//! The zones of a server by their words, and what they answer.

use crate::message_text::{frames_text, message_text};
use crate::queries::{message_of, transport_of};
use anyhow::bail;
use compared_rows::octets_of;
use line_text::{Words, read_hex, read_name, read_record, read_u8};
use std::alloc::Global;
use zone_handler::{AxfrPolicy, ZoneHandler, ZoneType};
use zone_proto::{NxProofKind, RecordType, Seq};
use zone_response::ServedZone;
use zone_server::{Answered, ListedZones, Mode, Server, TransferPolicy, answer, serve_frames};
use zone_store::InMemoryZoneHandler;
use zone_store::program::{DemoSigner, Sha1Hash};

/// A zone in memory.
type Handler = InMemoryZoneHandler<DemoSigner, Sha1Hash>;

/// A zone that is served.
#[derive(Drop)]
pub struct Zone {
    /// The zone itself.
    own: Handler,
    /// A zone whose sets it denies by, if these aren't its own.
    denials: Option<Handler>,
}

/// A zone without records by its words.
pub fn read_zone(alloc: Global, words: &mut Words<'_>) -> anyhow::Result<Zone> {
    let origin = read_name(alloc, words)?;
    let kind = match words.take() {
        None => None,
        Some(word) if word == b"nsec".as_slice() => Some(NxProofKind::Nsec),
        Some(_) => Some(read_hashed_kind(alloc, words)?),
    };
    let (zone_type, policy) = (ZoneType::Primary, AxfrPolicy::Deny);
    Ok(Zone {
        own: Handler::empty(origin, zone_type, policy, kind, Sha1Hash),
        denials: None,
    })
}

/// Puts the NSEC3 sets of the last zone but one into the last, which denies by those from then on. The other is none of the zones
/// any more.
pub fn take_denials(zones: &mut Vec<Zone>) -> anyhow::Result<()> {
    let (Some(mut zone), Some(other)) = (zones.pop(), zones.pop()) else {
        bail!("there are no two zones");
    };
    for (key, set) in other.own.inner().as_map().iter() {
        if key.record_type == RecordType::NSEC3 && zone.own.put_set(set.clone()?).is_err() {
            bail!("a set wasn't taken");
        }
    }
    zone.denials = Some(other.own);
    zones.push(zone)?;
    Ok(())
}

/// Who may transfer a zone, by its word.
pub fn read_policy(word: &str) -> anyhow::Result<TransferPolicy> {
    match word {
        "Deny" => Ok(TransferPolicy::Deny),
        "AllowAll" => Ok(TransferPolicy::AllowAll),
        "AllowSigned" => Ok(TransferPolicy::AllowSigned),
        _ => bail!("no policy"),
    }
}

/// How a zone denies by NSEC3: by SHA-1, or with the algorithm, the salt in hex and the iterations that follow, and then `optout`.
fn read_hashed_kind(alloc: Global, words: &mut Words<'_>) -> anyhow::Result<NxProofKind> {
    let Some(word) = words.take() else {
        return Ok(NxProofKind::Nsec3 {
            algorithm: 1,
            salt: Seq::new(alloc),
            iterations: 0,
            opt_out: false,
        });
    };
    let (Some(algorithm), Some(salt)) = (read_u8(word), read_hex(alloc, words.take_needed()?)?)
    else {
        bail!("no algorithm and salt");
    };
    Ok(NxProofKind::Nsec3 {
        algorithm,
        salt: Seq::from_vec(salt),
        iterations: words.take_u16()?,
        opt_out: words.take_flag(b"optout")?,
    })
}

/// Signs the last zone at the moment 0.
pub fn secure(zones: &mut Vec<Zone>) -> anyhow::Result<()> {
    let Some(zone) = zones.last_mut() else {
        bail!("there is no zone to be signed");
    };
    let own = &mut zone.own;
    let signer = DemoSigner::new(1, own.origin())?;
    if own.add_zone_signing_key_mut(signer).is_err() || own.secure_zone_mut(0).is_err() {
        bail!("a zone wasn't signed");
    }
    Ok(())
}

/// Puts a record into the last zone by its words.
pub fn add(alloc: Global, zones: &mut Vec<Zone>, words: &mut Words<'_>) -> anyhow::Result<()> {
    let Some(zone) = zones.last_mut() else {
        bail!("there is no zone for a record");
    };
    let new = read_record(alloc, words)?;
    let serial = zone.own.serial();
    if !zone.own.upsert(new, serial)? {
        bail!("a record wasn't taken");
    }
    Ok(())
}

/// A zone as it is served at a moment.
pub fn lent(zone: &Zone, moment: u64) -> ServedZone<'_, DemoSigner, Sha1Hash> {
    let own = &zone.own;
    let denials = zone.denials.as_ref().unwrap_or(own);
    ServedZone {
        origin: own.origin(),
        inner: own.inner(),
        denials: denials.inner().record_map(),
        nx_proof_kind: denials.nx_proof_kind(),
        hash: &Sha1Hash,
        moment,
    }
}

/// The zones as they are served at the moment 0.
fn served(alloc: Global, zones: &[Zone]) -> anyhow::Result<ListedZones<'_, DemoSigner, Sha1Hash>> {
    let mut served = Vec::new(alloc);
    for zone in zones {
        served.push(lent(zone, 0))?;
    }
    Ok(ListedZones::new(alloc, served)?)
}

/// The response to a message by its words.
pub fn ask(alloc: Global, zones: &[Zone], words: &str) -> anyhow::Result<String> {
    let Some((way, words)) = words.split_once(" ") else {
        bail!("a row has no transport");
    };
    let message = message_of(alloc, words)?;
    let zones = served(alloc, zones)?;
    let mut out = Vec::new(alloc);
    match answer(
        alloc,
        &zones,
        message.as_slice(),
        transport_of(way)?,
        &mut out,
    )? {
        Answered::Nothing => Ok(format!(in alloc; ";; no response\n")?),
        Answered::Response => message_text(alloc, out.as_slice()),
    }
}

/// The responses to frames by their words.
pub fn serve(
    alloc: Global,
    zones: &[Zone],
    policies: &[TransferPolicy],
    words: &str,
) -> anyhow::Result<String> {
    let Some((mode, hex)) = words.split_once(" ") else {
        bail!("a row has no mode");
    };
    let mode = if mode == "stream" {
        Mode::Stream
    } else {
        Mode::Limits
    };
    let frames = octets_of(alloc, hex)?;
    let zones = served(alloc, zones)?;
    let mut input = frames.as_slice();
    let mut output = Vec::new(alloc);
    let server = Server {
        zones: &zones,
        policies,
    };
    if serve_frames(alloc, &server, mode, &mut input, &mut output).is_err() {
        bail!("frames weren't served");
    }
    frames_text(alloc, output.as_slice())
}
