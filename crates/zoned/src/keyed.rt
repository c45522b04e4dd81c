//! Zones that are sent to those who have a key (TSIG, RFC 8945).
ghost use Rattle.std.specs.Prelude.{◌≡◌, ◌≢◌, ◌≤◌, ◌++◌, [], map, IfOk, OnOk};
ghost use Rattle.keyed_frames.specs.Serving.{Serves};
ghost use Rattle.keyed_frames.specs.Stopping.{BreaksOff};
ghost use Rattle.zone_database.specs.Databases.{zones_in};
ghost use Rattle.zoned.specs.Keyed.{all_with, grants_for, grants_of, name_of};

use crate::reporting::tell_stop;
use held_transfers::TransferAccess;
use host_texts::{read_file, tell};
use key_files::KeyFileError;
use keyed_frames::{Clock, serve_keyed_frames};
use message_tsig::Key;
use std::alloc::{AllocError, Global};
use std::io::{Read, Write};
use std::time::SystemTime;
use zone_database::{Zone, ZoneDatabase};
use zone_proto::{LowerName, ProtoError};
use zone_server::{Mode, TransferPolicy};

/// The clock of the machine.
#[derive(Drop)]
pub struct HostClock<'r> {
    pub rt: &'r HostRuntime,
}

/// One that can't be read tells 1970, when no signature holds.
impl Clock for HostClock<'_> {
    fn seconds(&mut self) -> u64 {
        match SystemTime::now(self.rt) {
            Ok(now) => seconds_of(now),
            Err(_) => 0,
        }
    }
}

/// A moment in seconds since 1970; one before is 0.
fn seconds_of(moment: SystemTime) -> u64 {
    match moment.duration_since(SystemTime::UNIX_EPOCH) {
        Ok(since) => since.as_secs(),
        Err(_) => 0,
    }
}

/// Answers the frames of an input from zones, each with who may have it by the keys of a file, and gives the status of the program.
pub fn serve_by_keys<R: Read, W: Write, E: Write>(
    rt: &HostRuntime,
    alloc: Global,
    file: &str,
    zones: Vec<Zone>,
    policies: &[TransferPolicy],
    mode: Mode,
    input: &mut R,
    output: &mut W,
    fault: &mut E,
) -> u8
    ensures { result ≤ 2 }
{
    let mut text = Vec::new(alloc);
    if read_file(rt, file, &mut text, fault).is_none() {
        return 2;
    }
    let Some(access) = granted_access(
        alloc,
        file,
        text.as_slice(),
        zones.as_slice(),
        policies,
        fault,
    ) else {
        return 2;
    };
    let Ok(database) = database_of(alloc, zones) else {
        return tell(fault, b"out of memory\n");
    };
    let mut clock = HostClock { rt };
    serve_keyed(
        alloc, &database, &access, &mut clock, mode, input, output, fault,
    )
}

/// The keys of the text of a file, and who may have which zone by them. None if it isn't one of keys; why is told.
pub fn granted_access<E: Write>(
    alloc: Global,
    file: &str,
    text: &[u8],
    zones: &[Zone],
    policies: &[TransferPolicy],
    fault: &mut E,
) -> Option<TransferAccess> {
    let mut access = match TransferAccess::read(alloc, text) {
        Ok(access) => access,
        Err(error) => return refuse_keys(file, error, fault),
    };
    match grant(alloc, &mut access, zones, policies) {
        Ok(()) => Some(access),
        Err(_) => {
            tell(fault, b"out of memory\n");
            None
        }
    }
}

/// Tells why a file of keys isn't taken.
pub fn refuse_keys<T, E: Write>(file: &str, error: KeyFileError, fault: &mut E) -> Option<T> {
    match error {
        KeyFileError::Memory => {
            tell(fault, b"out of memory\n");
        }
        KeyFileError::Fault(found) => {
            let _ = write!(fault, "{file}:{found}\n");
        }
    }
    None
}

/// Lets those have zones who may: of each, by its policy, anybody, who has one of the keys, or nobody. Fails only for lack of memory.
fn grant(
    alloc: Global,
    access: &mut TransferAccess,
    zones: &[Zone],
    policies: &[TransferPolicy],
) -> Result<(), ProtoError>
    ensures { OnOk result (access.new.grants.items ≡ access.old.grants.items
        ++ grants_of (map name_of access.old.keys.items) zones.now policies.now) }
{
    let names = key_names(alloc, access.keys.as_slice())?;
    grant_all(access, names.as_slice(), zones, policies)
}

/// The names of keys.
fn key_names(alloc: Global, keys: &[Key]) -> Result<Vec<LowerName>, ProtoError>
    ensures { IfOk result (λ names. names.items ≡ map name_of keys.now) }
{
    let mut names = Vec::with_capacity(alloc, keys.len())?;
    for key in keys {
        names.push(key.name.clone()?)?;
    }
    Ok(names)
}

/// Lets those have zones who may, by the names of the keys.
#[tactic(auto, using(crate::proofs::Granted::granted_on, crate::proofs::Granted::no_zone_left, crate::proofs::Granted::no_policy_left))]
fn grant_all(
    access: &mut TransferAccess,
    names: &[LowerName],
    zones: &[Zone],
    policies: &[TransferPolicy],
) -> Result<(), ProtoError>
    ensures { OnOk result (access.new.grants.items ≡ access.old.grants.items
        ++ grants_of names.now zones.now policies.now) }
{
    let (mut zones, mut policies) = (zones, policies);
    while let Some((zone, others)) = zones.split_first() {
        let Some((policy, behind)) = policies.split_first() else {
            return Ok(());
        };
        grant_one(access, names, &zone.origin, *policy)?;
        zones = others;
        policies = behind;
    }
    Ok(())
}

/// Lets those have the zone of an origin who may, by the names of the keys.
fn grant_one(
    access: &mut TransferAccess,
    names: &[LowerName],
    origin: &LowerName,
    policy: TransferPolicy,
) -> Result<(), ProtoError>
    ensures { OnOk result (access.new.grants.items ≡ access.old.grants.items
        ++ grants_for names.now origin.now policy) }
{
    match policy {
        TransferPolicy::Deny => Ok(()),
        TransferPolicy::AllowAll => Ok(access.allow(origin.clone()?, None)?),
        TransferPolicy::AllowSigned => grant_to_keys(access, names, origin),
    }
}

/// Lets those have the zone of an origin who have a key of one of these names.
fn grant_to_keys(
    access: &mut TransferAccess,
    names: &[LowerName],
    origin: &LowerName,
) -> Result<(), ProtoError>
    ensures { OnOk result (access.new.grants.items ≡ access.old.grants.items
        ++ grants_for names.now origin.now TransferPolicy.AllowSigned) }
{
    for name in names {
        access.allow(origin.clone()?, Some(name.clone()?))?;
    }
    Ok(())
}

/// Zones side by side. Fails only for lack of memory.
pub fn database_of(alloc: Global, zones: Vec<Zone>) -> Result<ZoneDatabase, AllocError>
    ensures { IfOk result (λ database. zones_in database ≡ all_with zones.items []) }
{
    let mut database = ZoneDatabase::new(alloc);
    for zone in zones {
        database.put(alloc, zone)?;
    }
    Ok(database)
}

/// Answers the frames of an input from zones, by keys, and gives the status of the program: 0 at the end of the input, and 2 where there isn't
/// enough memory, or a read or a write fails; why is told, and what was written by then is a front of the answers.
fn serve_keyed<C: Clock, R: Read, W: Write, E: Write>(
    alloc: Global,
    database: &ZoneDatabase,
    access: &TransferAccess,
    clock: &mut C,
    mode: Mode,
    input: &mut R,
    output: &mut W,
    fault: &mut E,
) -> u8
    ensures status { result ≤ 2 }
    ensures served { result ≡ 0 → Serves access.now (zones_in database.now) mode
        (R.remaining input.old) (R.remaining input.new)
        (W.contents output.old) (W.contents output.new) }
    ensures broken_off { result ≢ 0 → BreaksOff access.now (zones_in database.now) mode
        (R.remaining input.old) (R.remaining input.new)
        (W.contents output.old) (W.contents output.new) }
{
    match serve_keyed_frames(alloc, database, access, clock, mode, input, output) {
        Ok(()) => 0,
        Err(stop) => tell_stop(fault, &stop),
    }
}
