//! The keys of a server, and who may have its zones.
ghost use Rattle.std.specs.Prelude.{◌≡◌, ◌++◌, [], ◌∷◌, IfErr, IfOk, OnErr, OnOk, map, option_copied};
ghost use Rattle.key_files.specs.Entries.{ReportsFault};
ghost use Rattle.held_transfers.specs.Accesses.{has_key, is_let, is_to, key_of, lets, policy_for, ReadsKeys};

use key_files::{KeyEntry, KeyFileError, read_keys};
use message_tsig::{Key, KeyZones};
use std::alloc::{AllocError, Global};
use zone_proto::LowerName;
use zone_server::TransferPolicy;

/// Lets somebody have the zone of an origin.
#[derive(Drop)]
pub struct Grant {
    /// The origin of the zone.
    pub origin: LowerName,
    /// The name of the key that those have who may have it; without one, anybody may.
    pub key: Option<LowerName>,
}

/// The keys that a server shares with others, and who may have its zones: nobody, of whom no grant says it.
#[derive(Drop)]
pub struct TransferAccess {
    /// The keys. Of keys of one name and algorithm the first counts.
    pub keys: Vec<Key>,
    /// Who may have which zone.
    pub grants: Vec<Grant>,
}

impl TransferAccess {
    /// The keys of a text, as `tsig-keygen` of BIND, `keymgr -t` of Knot DNS and the `key:` blocks of NSD have them; nobody may have a zone yet.
    /// The first fault of the text refuses it, with its place, and so does want of memory.
    pub fn read(alloc: Global, text: &[u8]) -> Result<TransferAccess, KeyFileError>
        ensures keys { IfOk result (λ access. ReadsKeys text.now access.keys.items) }
        ensures grants { IfOk result (λ access. access.grants.items ≡ []) }
        ensures fault { IfErr result (ReportsFault text.now) }
    {
        let entries = read_keys(alloc, text)?;
        let keys = access_keys(alloc, entries)?;
        Ok(TransferAccess {
            keys,
            grants: Vec::new(alloc),
        })
    }

    /// Whether there is a key of a name. Takes no memory.
    pub fn has_key(&self, name: &LowerName) -> bool
        ensures { result ≡ has_key name.now self.now.keys.items }
    {
        self.keys.iter().any(|key| key.name == *name)
    }

    /// Lets those have the zone of an origin who have the key of a name, or anybody without one. Fails only for lack of memory, and then
    /// nothing changes.
    pub fn allow(&mut self, origin: LowerName, key: Option<LowerName>) -> Result<(), AllocError>
        ensures keys { self.new.keys ≡ self.old.keys }
        ensures allowed { OnOk result (self.new.grants.items
            ≡ self.old.grants.items ++ record { origin = origin; key = key } ∷ []) }
        ensures same { OnErr result (self.new.grants.items ≡ self.old.grants.items) }
    {
        self.grants.push(Grant { origin, key })?;
        Ok(())
    }

    /// Who may have the zone of an origin, of those who have a key or none: all of them, or nobody. How long it takes grows with the number of
    /// grants. Takes no memory.
    pub fn policy_for(&self, key: Option<&Key>, origin: &LowerName) -> TransferPolicy
        ensures { result ≡ policy_for self.now.grants.items (option_copied key.entry) origin.now }
    {
        if is_let(self.grants.as_slice(), key, origin) {
            TransferPolicy::AllowAll
        } else {
            TransferPolicy::Deny
        }
    }
}

/// Whether one of some grants lets those who have a key, or none, have the zone of an origin.
fn is_let(grants: &[Grant], key: Option<&Key>, origin: &LowerName) -> bool
    ensures { result ≡ is_let grants.now (option_copied key.entry) origin.now }
{
    grants.iter().any(|grant| lets(grant, key, origin))
}

/// Whether a grant lets those who have a key, or none, have the zone of an origin.
fn lets(grant: &Grant, key: Option<&Key>, origin: &LowerName) -> bool
    ensures { result ≡ lets (option_copied key.entry) origin.now grant.now }
{
    grant.origin == *origin && is_to(&grant.key, key)
}

/// Whether those who have a key, or none, are those that a grant names, or it names none.
fn is_to(name: &Option<LowerName>, key: Option<&Key>) -> bool
    ensures { result ≡ is_to (option_copied key.entry) name.now }
{
    match (name, key) {
        (None, _) => true,
        (Some(_), None) => false,
        (Some(name), Some(key)) => key.name == *name,
    }
}

/// The keys of the entries of a file.
fn access_keys(alloc: Global, entries: Vec<KeyEntry>) -> Result<Vec<Key>, AllocError>
    ensures { IfOk result (λ keys. keys.items ≡ map key_of entries.items) }
{
    let mut keys = Vec::with_capacity(alloc, entries.len())?;
    for entry in entries {
        keys.push(key_of(entry))?;
    }
    Ok(keys)
}

/// The key of an entry. Which zones those may have who share it isn't said by the key.
fn key_of(entry: KeyEntry) -> Key
    ensures { result ≡ key_of entry }
{
    let KeyEntry {
        name,
        algorithm,
        secret,
    } = entry;
    Key {
        name,
        algorithm,
        secret,
        zones: KeyZones::All,
    }
}
