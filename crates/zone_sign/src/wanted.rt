//! What the arguments of the program ask for.

use std::alloc::{AllocError, Global};
use zone_proto::{Name, NxProofKind, Seq};

/// The TTL of the records of keys if none is given: an hour, in seconds.
const KEY_TTL: u32 = 3600;

/// What is done.
#[derive(Clone, Copy, PartialEq, Eq, Debug)]
pub enum Mode {
    /// Write what has to be signed.
    Plan,
    /// The same, then read the signatures and write the signed zone.
    Sign,
    /// Write the signatures of the old zone that stay, with what they are made of.
    Standing,
    /// Write the signatures of the zone, with what they are made of.
    Signatures,
    /// Write the DS records of the zone's keys.
    Ds,
}

/// What becomes of the ZONEMD record of the zone (RFC 8976).
#[derive(Clone, Copy, PartialEq, Eq, Debug)]
pub enum ZoneDigest {
    /// Nothing: it stays as the file has it.
    Unchanged,
    /// The zone gets one before it is signed, so that its denials list the type. Its digest is that of the unsigned zone.
    Placed,
    /// It gets the digest of the zone, which stays as it is otherwise.
    Renewed,
}

/// What is wanted of the program.
#[derive(Drop)]
pub struct Wanted<'w> {
    /// What is done.
    pub mode: Mode,
    /// The zone file.
    pub file: &'w str,
    /// The origin at its beginning, and that of its zone, if one is given.
    pub origin: Option<Name>,
    /// The first moment of the signatures, in seconds since 1970.
    pub inception: u64,
    /// The last one.
    pub expiration: u64,
    /// How many seconds earlier at most signatures end.
    pub jitter: u32,
    /// The TTL of the records of keys, in seconds.
    pub key_ttl: u32,
    /// Whether the zone asks its parent for the DS records of its keys, by CDS and CDNSKEY (RFC 7344).
    pub asks_parent: bool,
    /// What becomes of its ZONEMD record.
    pub zone_digest: ZoneDigest,
    /// How the zone denies what it doesn't hold.
    pub nx_proof_kind: NxProofKind,
    /// The file with an earlier version of the signed zone, if signatures of it are to stay.
    pub old: Option<&'w str>,
    /// The file with signatures of it that don't stay, each preceded by its length in two octets.
    pub wrong: Option<&'w str>,
    /// For how many seconds from the first moment on a signature has to hold to stay.
    pub again: u64,
    /// The files with its public keys.
    pub keys: Vec<&'w str>,
}

/// What arguments ask for. None if they aren't valid.
pub fn wanted_by(alloc: Global, words: &[String]) -> Result<Option<Wanted<'_>>, AllocError> {
    let Some((mode, others)) = words.split_first() else {
        return Ok(None);
    };
    let Some(mode) = mode_of(mode.as_str()) else {
        return Ok(None);
    };
    let Some((file, others)) = others.split_first() else {
        return Ok(None);
    };
    let mut wanted = Wanted {
        mode,
        file: file.as_str(),
        origin: None,
        inception: 0,
        expiration: 0,
        jitter: 0,
        key_ttl: KEY_TTL,
        asks_parent: false,
        zone_digest: ZoneDigest::Unchanged,
        nx_proof_kind: NxProofKind::Nsec,
        old: None,
        wrong: None,
        again: 0,
        keys: Vec::new(alloc),
    };
    let mut left = others;
    while let Some((word, others)) = left.split_first() {
        let Some(count) = take(alloc, &mut wanted, word.as_str(), others)? else {
            return Ok(None);
        };
        let Some(rest) = others.get(count..) else {
            return Ok(None);
        };
        left = rest;
    }
    Ok(Some(wanted))
}

/// The mode of a word.
fn mode_of(word: &str) -> Option<Mode> {
    match word {
        "plan" => Some(Mode::Plan),
        "sign" => Some(Mode::Sign),
        "standing" => Some(Mode::Standing),
        "signatures" => Some(Mode::Signatures),
        "ds" => Some(Mode::Ds),
        _ => None,
    }
}

/// Takes an option, and gives how many of the arguments after it belong to it; none if it isn't valid.
fn take<'w>(
    alloc: Global,
    wanted: &mut Wanted<'w>,
    word: &str,
    others: &'w [String],
) -> Result<Option<usize>, AllocError> {
    match word {
        "--opt-out" => {
            if let NxProofKind::Nsec3 { opt_out, .. } = &mut wanted.nx_proof_kind {
                *opt_out = true;
                return Ok(Some(0));
            }
            Ok(None)
        }
        "--cds" => {
            wanted.asks_parent = true;
            Ok(Some(0))
        }
        "--zonemd" => {
            wanted.zone_digest = ZoneDigest::Placed;
            Ok(Some(0))
        }
        "--digest" => {
            wanted.zone_digest = ZoneDigest::Renewed;
            Ok(Some(0))
        }
        "--nsec3" => take_nsec3(alloc, wanted, others),
        _ => {
            let Some(value) = others.first() else {
                return Ok(None);
            };
            take_value(alloc, wanted, word, value.as_str())
        }
    }
}

/// Takes the parameters of NSEC3: a salt in hex, or `-`, and iterations.
fn take_nsec3(
    alloc: Global,
    wanted: &mut Wanted<'_>,
    others: &[String],
) -> Result<Option<usize>, AllocError> {
    let Some(salt) = others.first() else {
        return Ok(None);
    };
    let Some(iterations) = others.get(1) else {
        return Ok(None);
    };
    let Some(salt) = salt_of(alloc, salt.as_str())? else {
        return Ok(None);
    };
    let Ok(iterations) = iterations.as_str().parse::<u16>() else {
        return Ok(None);
    };
    wanted.nx_proof_kind = NxProofKind::Nsec3 {
        algorithm: 1,
        salt: Seq::from_vec(salt),
        iterations,
        opt_out: false,
    };
    Ok(Some(2))
}

/// Octets in hex, 255 at most, or none at all by `-`.
fn salt_of(alloc: Global, word: &str) -> Result<Option<Vec<u8>>, AllocError> {
    let mut salt = Vec::new(alloc);
    if word == "-" {
        return Ok(Some(salt));
    }
    let mut high = None;
    for octet in word.as_bytes() {
        let Some(digit) = digit_of(*octet) else {
            return Ok(None);
        };
        match high {
            None => high = Some(digit),
            Some(first) => {
                salt.push(octet_of(first, digit))?;
                high = None;
            }
        }
    }
    if high.is_some() || salt.len() > 255 {
        return Ok(None);
    }
    Ok(Some(salt))
}

/// The octet of two digits.
fn octet_of(high: u8, low: u8) -> u8 {
    (high % 16) * 16 + low % 16
}

/// The value of a digit.
fn digit_of(octet: u8) -> Option<u8> {
    match octet {
        b'0'..=b'9' => Some(octet - b'0'),
        b'a'..=b'f' => Some(octet - b'a' + 10),
        b'A'..=b'F' => Some(octet - b'A' + 10),
        _ => None,
    }
}

/// Takes an option with one value.
fn take_value<'w>(
    alloc: Global,
    wanted: &mut Wanted<'w>,
    word: &str,
    value: &'w str,
) -> Result<Option<usize>, AllocError> {
    match word {
        "--from" => {
            let Ok(moment) = value.parse::<u64>() else {
                return Ok(None);
            };
            wanted.inception = moment;
        }
        "--until" => {
            let Ok(moment) = value.parse::<u64>() else {
                return Ok(None);
            };
            wanted.expiration = moment;
        }
        "--jitter" => {
            let Ok(seconds) = value.parse::<u32>() else {
                return Ok(None);
            };
            wanted.jitter = seconds;
        }
        "--key-ttl" => {
            let Ok(seconds) = value.parse::<u32>() else {
                return Ok(None);
            };
            wanted.key_ttl = seconds;
        }
        "--origin" => {
            let Ok(origin) = Name::parse(alloc, value) else {
                return Ok(None);
            };
            wanted.origin = Some(origin);
        }
        "--old" => wanted.old = Some(value),
        "--wrong" => wanted.wrong = Some(value),
        "--again" => {
            let Ok(seconds) = value.parse::<u64>() else {
                return Ok(None);
            };
            wanted.again = seconds;
        }
        "--key" => wanted.keys.push(value)?,
        _ => return Ok(None),
    }
    Ok(Some(1))
}
