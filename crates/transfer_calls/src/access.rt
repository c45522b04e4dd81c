//! The keys of a server, and who may have its zones, as a program that isn't written in Rattle keeps them.
ghost use Rattle.std.specs.Bool.{MatchBool};
ghost use Rattle.std.specs.Prelude.{◌≡◌, ◌⊎◌, None, Some};
ghost use Rattle.zone_database.specs.Calls.{IsReported};
ghost use Rattle.transfer_calls.specs.Accesses.{AllowsHeld, IsAllowed, IsMissing, IsThere, ReadsAccess};

use crate::access_handle::AccessHandle;
use crate::grants::grant_of;
use crate::outcome::TransferOutcome;
use call_handles::Handle;
use held_transfers::{Grant, TransferAccess};
use key_files::{KeyFileError, KeyFileFault};
use std::alloc::Global;
use std::mem;
use zone_database::{Outcome, tell};
use zone_proto::LowerName;

/// Has a handle hold the keys of a text, in place of what it holds; nobody may have a zone then. The fault of a text that is refused is written
/// into the room: its line and column, and what is wrong there. What was held stays then.
pub fn read_access(
    alloc: Global,
    access: &mut AccessHandle,
    text: &[u8],
    buffer: &mut [u8],
    written: &mut usize,
) -> Outcome
    ensures access { ReadsAccess text.now access.old.held result access.new.held }
    ensures told { IsReported result written.new buffer.old buffer.new }
{
    let mut told = String::new(alloc);
    let outcome = read_held(alloc, access, text, &mut told);
    *written = tell(outcome, told.as_bytes(), buffer);
    outcome
}

/// The same, with what is told as a text.
fn read_held(alloc: Global, access: &mut AccessHandle, text: &[u8], told: &mut String) -> Outcome
    ensures { ReadsAccess text.now access.old.held result access.new.held }
{
    match TransferAccess::read(alloc, text) {
        Ok(read) => put_access(alloc, access, read),
        Err(KeyFileError::Memory) => Outcome::NoMemory,
        Err(KeyFileError::Fault(fault)) => told_fault(&fault, told),
    }
}

/// Has a handle hold keys; `NoMemory` leaves what it holds.
fn put_access(alloc: Global, access: &mut AccessHandle, read: TransferAccess) -> Outcome
    ensures { ((result ≡ Outcome.Done) × (access.new.held ≡ Some read))
        ⊎ ((result ≡ Outcome.NoMemory) × (access.new.held ≡ access.old.held)) }
{
    match Box::new(alloc, read) {
        Ok(read) => {
            access.put(read);
            Outcome::Done
        }
        Err(_) => Outcome::NoMemory,
    }
}

/// Tells a fault.
fn told_fault(fault: &KeyFileFault, told: &mut String) -> Outcome
    ensures { (result ≡ Outcome.BadText) ⊎ (result ≡ Outcome.NoMemory) }
{
    match write!(told, "{fault}\n") {
        Ok(()) => Outcome::BadText,
        Err(_) => Outcome::NoMemory,
    }
}

/// Lets those have the zone of an origin who have the key of a name; anybody, where the name has no octets. Refused by `NoKeys`, `NoKey`,
/// `BadName` and `NoMemory`; nothing changes then.
#[tactic(auto, using(crate::proofs::CallFacts::allowed_held))]
pub fn allow(alloc: Global, access: &mut AccessHandle, origin: &[u8], key: &[u8]) -> TransferOutcome
    ensures { AllowsHeld origin.now key.now access.old.held result access.new.held }
{
    match access.take(alloc) {
        Some(mut held) => {
            let outcome = allow_in(alloc, &mut held, origin, key);
            access.put(held);
            outcome
        }
        None => TransferOutcome::NoKeys,
    }
}

/// The same of keys.
#[tactic(auto, using(crate::proofs::CallFacts::unread_grant))]
fn allow_in(
    alloc: Global,
    access: &mut TransferAccess,
    origin: &[u8],
    key: &[u8],
) -> TransferOutcome
    ensures { IsAllowed origin.now key.now access.old result access.new }
{
    let grant = match grant_of(alloc, origin, key) {
        Ok(grant) => grant,
        Err(outcome) => return outcome,
    };
    if !is_there(&grant.key, access) {
        return TransferOutcome::NoKey;
    }
    let Grant { origin, key } = grant;
    match access.allow(origin, key) {
        Ok(()) => TransferOutcome::Usual(Outcome::Done),
        Err(_) => TransferOutcome::Usual(Outcome::NoMemory),
    }
}

/// Whether there is a key of a name, where one is named.
fn is_there(name: &Option<LowerName>, access: &TransferAccess) -> bool
    ensures { MatchBool result (IsThere name.now access.now.keys.items)
        (IsMissing name.now access.now.keys.items) }
{
    match name {
        Some(name) => access.has_key(name),
        None => true,
    }
}

/// Gives the memory of what a handle holds back, and wipes the secrets. It holds nothing then.
pub fn free_access(alloc: Global, access: &mut AccessHandle)
    ensures { access.new.held ≡ None }
{
    drop(mem::replace(access, AccessHandle::empty(alloc)));
}
