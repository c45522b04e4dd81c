//! The journals of zones, each in a file of a folder.

use crate::replaying::{replay, serial_of};
use held_updates::UpdateAccess;
use host_texts::{HostTexts, refuse, refuse_unread};
use journal_files::{AppendFault, Journal, JournalFile};
use journal_frames::whole_length;
use std::alloc::{AllocError, Global};
use std::collections::BTreeMap;
use std::fs::{self, File, OpenOptions, TryLockError};
use std::io;
use std::io::{ErrorKind, Write};
use updating_frames::Journals;
use zone_database::ZoneDatabase;
use zone_journal::ReplayFault;
use zone_proto::LowerName;
use zone_texts::Texts;

/// A file of the file system, which is opened to append to it.
#[derive(Drop)]
struct HostFile {
    file: File,
}

impl JournalFile for HostFile {
    fn put(&mut self, frame: &[u8]) -> io::Result<()> {
        self.file.write_all(frame)?;
        self.file.sync_data()
    }

    fn cut(&mut self, length: u64) -> io::Result<()> {
        self.file.set_len(length)?;
        self.file.sync_data()
    }
}

/// The journal of a zone, with its path.
#[derive(Drop)]
struct ZoneJournal {
    path: String,
    journal: Journal<HostFile>,
}

/// The journals of zones, each in a file of a folder. The folder is locked as long as they are there.
#[derive(Drop)]
pub struct FolderJournals<'r> {
    rt: &'r HostRuntime,
    folder: File,
    journals: BTreeMap<LowerName, ZoneJournal>,
}

/// One that can't take an update tells why.
impl Journals for FolderJournals<'_> {
    #[tactic(auto, using(crate::proofs::Unknown::taken_unknown))]
    fn append(&mut self, origin: &LowerName, frame: &[u8]) -> bool {
        let mut fault = self.rt.stderr();
        match self.journals.get_mut(origin) {
            Some(kept) => is_taken(kept, frame, &mut fault),
            None => false,
        }
    }
}

/// Has a journal take a frame, and tells why where it doesn't.
fn is_taken<E: Write>(kept: &mut ZoneJournal, frame: &[u8], fault: &mut E) -> bool {
    match kept.journal.append(frame) {
        Ok(()) => true,
        Err(AppendFault::Unwritten(why)) => {
            let _ = write!(fault, "{}: an update isn't taken: {why}\n", kept.path);
            if !kept.journal.is_open {
                let _ = write!(fault, "{}: what was written of it stays\n", kept.path);
            }
            false
        }
        Err(AppendFault::Closed) => false,
    }
}

/// Opens the journals of the zones that have rules, and puts the zones that they lead to in place of the others. None if one of them can't be read,
/// replayed or opened; why is told.
///
/// What a journal has behind its last whole frame, an update that nobody was told of, is cut off; the file with `.old` behind its name has the
/// journal as it was. One that doesn't fit its zone, or has nothing that the zone lacks, is put aside under that name, and begun anew.
pub fn open_journals<'r, E: Write>(
    rt: &'r HostRuntime,
    alloc: Global,
    name: &str,
    updates: &UpdateAccess,
    zones: &mut ZoneDatabase,
    fault: &mut E,
) -> Option<FolderJournals<'r>> {
    let folder = open_folder(rt, name, fault)?;
    let mut journals = BTreeMap::new(alloc);
    for origin in updates.tables.keys() {
        let journal = open_journal(rt, alloc, name, origin, zones, fault)?;
        if keep(&mut journals, origin, journal).is_err() {
            return refuse(fault, name, &"out of memory");
        }
    }
    // That new files are in it outlasts whatever happens.
    match folder.sync_all() {
        Ok(()) => Some(FolderJournals {
            rt,
            folder,
            journals,
        }),
        Err(e) => refuse(fault, name, &e.kind()),
    }
}

/// Puts a journal among others.
fn keep(
    journals: &mut BTreeMap<LowerName, ZoneJournal>,
    origin: &LowerName,
    journal: ZoneJournal,
) -> Result<(), AllocError> {
    let Ok(origin) = origin.clone() else {
        drop(journal);
        return Err(AllocError);
    };
    match journals.insert(origin, journal) {
        Ok(_) => Ok(()),
        Err(_) => Err(AllocError),
    }
}

/// Opens the folder of journals, and locks it. None if it isn't there, or another server has it; why is told.
fn open_folder<E: Write>(rt: &HostRuntime, name: &str, fault: &mut E) -> Option<File> {
    let folder = match fs::open(rt, name) {
        Ok(folder) => folder,
        Err(e) => return refuse(fault, name, &e.kind()),
    };
    match folder.try_lock() {
        Ok(()) => Some(folder),
        Err(TryLockError::WouldBlock) => {
            refuse(fault, name, &"another server has its journals there")
        }
        Err(TryLockError::Error(e)) => refuse(fault, name, &e.kind()),
    }
}

/// Opens the journal of a zone, once it is replayed.
fn open_journal<E: Write>(
    rt: &HostRuntime,
    alloc: Global,
    folder: &str,
    origin: &LowerName,
    zones: &mut ZoneDatabase,
    fault: &mut E,
) -> Option<ZoneJournal> {
    // (An origin ends with a dot.)
    let Ok(path) = format!(in alloc; "{folder}/{origin}journal") else {
        return refuse(fault, folder, &"out of memory");
    };
    let octets = journal_octets(rt, alloc, path.as_str(), fault)?;
    let intact = replayed_front(rt, alloc, path.as_str(), origin, zones, octets, fault)?;
    let file = match OpenOptions::new()
        .append(true)
        .create(true)
        .open(rt, path.as_str())
    {
        Ok(file) => file,
        Err(e) => return refuse(fault, path.as_str(), &e.kind()),
    };
    match begun(HostFile { file }, intact) {
        Ok(journal) => Some(ZoneJournal { path, journal }),
        Err(e) => refuse(fault, path.as_str(), &e.kind()),
    }
}

/// The journal of a file, of which so many octets stay.
fn begun(file: HostFile, intact: u64) -> io::Result<Journal<HostFile>> {
    let length = file.file.metadata()?.len();
    if length < intact {
        return Err(io::Error::from(ErrorKind::UnexpectedEof));
    }
    Journal::begin(file, length, intact)
}

/// The octets of a journal; none where there is no such file. None if it can't be read, or isn't a file; why is told.
fn journal_octets<E: Write>(
    rt: &HostRuntime,
    alloc: Global,
    path: &str,
    fault: &mut E,
) -> Option<Vec<u8>> {
    let mut texts = HostTexts { rt };
    match texts.text(alloc, path) {
        Ok(octets) => Some(octets),
        Err(ErrorKind::NotFound) => Some(Vec::new(alloc)),
        Err(why) => refuse_unread(fault, path, why),
    }
}

/// Replays the journal of a zone that has these octets, and gives how many of them stay: those of its whole frames, or none, once it is put aside.
fn replayed_front<E: Write>(
    rt: &HostRuntime,
    alloc: Global,
    path: &str,
    origin: &LowerName,
    zones: &mut ZoneDatabase,
    octets: Vec<u8>,
    fault: &mut E,
) -> Option<u64> {
    let octets = octets.as_slice();
    let intact = whole_length(octets);
    let Ok(before) = serial_of(zones, origin) else {
        return refuse(fault, path, &"out of memory");
    };
    match replay(alloc, zones, origin, octets) {
        Ok(()) => {}
        Err(ReplayFault::Memory) => return refuse(fault, path, &"out of memory"),
        Err(ReplayFault::NoEntry) => {
            return put_aside(rt, alloc, path, "it isn't a journal", fault);
        }
        Err(ReplayFault::Misfit) => {
            return put_aside(rt, alloc, path, "it doesn't fit its zone file", fault);
        }
    }
    let Ok(after) = serial_of(zones, origin) else {
        return refuse(fault, path, &"out of memory");
    };
    if 0 < intact && before == after {
        let why = "it has nothing that its zone file lacks";
        return put_aside(rt, alloc, path, why, fault);
    }
    if intact < octets.len() {
        keep_torn(rt, alloc, path, octets, octets.len() - intact, fault)?;
    }
    Some(intact as u64)
}

/// Gives the file of a journal the name that has `.old` behind it, and tells why. So no octet of it stays.
fn put_aside<E: Write>(
    rt: &HostRuntime,
    alloc: Global,
    path: &str,
    why: &str,
    fault: &mut E,
) -> Option<u64> {
    let Ok(aside) = format!(in alloc; "{path}.old") else {
        return refuse(fault, path, &"out of memory");
    };
    match fs::rename(rt, path, aside.as_str()) {
        Ok(()) => {
            let _ = write!(fault, "{path}: {why}, and is put aside as {aside}\n");
            Some(0)
        }
        Err(e) => {
            let _ = write!(
                fault,
                "{path}: {why}, and can't be put aside: {}\n",
                e.kind()
            );
            None
        }
    }
}

/// Keeps a journal whose last octets, so many, are no whole frame, under the name that has `.old` behind it, and tells that these are cut off. None if
/// it can't be written; why is told.
fn keep_torn<E: Write>(
    rt: &HostRuntime,
    alloc: Global,
    path: &str,
    octets: &[u8],
    torn: usize,
    fault: &mut E,
) -> Option<()> {
    let Ok(aside) = format!(in alloc; "{path}.old") else {
        return refuse(fault, path, &"out of memory");
    };
    match fs::write(rt, aside.as_str(), octets) {
        Ok(()) => {
            let _ = write!(
                fault,
                "{path}: its last {torn} octets are no whole update, and are cut off; {aside} has all\n"
            );
            Some(())
        }
        Err(e) => refuse(fault, aside.as_str(), &e.kind()),
    }
}
