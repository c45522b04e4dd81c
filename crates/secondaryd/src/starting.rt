//! How the program begins: its words, and the secondary that they ask for.

use crate::files::{read_key, read_zone_file};
use crate::following::Following;
use host_texts::refuse;
use std::io::Write;
use zone_proto::{LowerName, Name};

/// What is wanted of the program.
#[derive(Drop)]
pub struct Wanted<'w> {
    /// The origin of the zone.
    pub origin: &'w str,
    /// The file of keys, if there is one.
    pub keys: Option<&'w str>,
    /// The file of the zone that is held, and the moment at which it was the primary's.
    pub zone: Option<(&'w str, u64)>,
}

/// What words ask for: an origin, and then `--keys` and `--zone` or nothing. None if they aren't that.
pub fn wanted_by(words: &[String]) -> Option<Wanted<'_>> {
    let (origin, words) = words.split_first()?;
    let (keys, words) = match words {
        [flag, file, others @ ..] if flag.as_str() == "--keys" => (Some(file.as_str()), others),
        _ => (None, words),
    };
    let (zone, words) = match words {
        [flag, file, moment, others @ ..] if flag.as_str() == "--zone" => {
            let moment = moment.as_str().parse::<u64>().ok()?;
            (Some((file.as_str(), moment)), others)
        }
        _ => (None, words),
    };
    if !words.is_empty() {
        return None;
    }
    Some(Wanted {
        origin: origin.as_str(),
        keys,
        zone,
    })
}

/// The secondary that is wanted. None if it can't begin; why is told.
pub fn begin<E: Write>(rt: &HostRuntime, wanted: &Wanted<'_>, fault: &mut E) -> Option<Following> {
    let alloc = rt.alloc();
    let Ok(origin) = Name::parse(alloc, wanted.origin) else {
        return refuse(fault, wanted.origin, &"this is no name");
    };
    let Ok(name) = LowerName::new(&origin) else {
        return refuse(fault, wanted.origin, &"out of memory");
    };
    let key = match wanted.keys {
        Some(file) => Some(read_key(rt, file, fault)?),
        None => None,
    };
    let mut following = Following::new(alloc, name, key);
    if let Some((file, confirmed)) = wanted.zone {
        let zone = read_zone_file(rt, file, origin, fault)?;
        following.keep(zone, confirmed);
    }
    Some(following)
}
