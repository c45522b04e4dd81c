//! The keys of a server, and the rules of its zones, as a program that isn't written in Rattle keeps them.
ghost use Rattle.std.specs.Prelude.{◌≡◌, ◌⊎◌, None, Some};
ghost use Rattle.update_calls.specs.Accesses.{IsRuled, ReadsAccess, RulesHeld, TellsFault};

use crate::handle::UpdatesHandle;
use crate::outcome::UpdateOutcome;
use crate::rules::{RuleTexts, ZoneRule, rule_of};
use call_handles::Handle;
use held_updates::UpdateAccess;
use key_files::{KeyFileError, KeyFileFault};
use std::alloc::Global;
use std::mem;
use zone_database::{Outcome, tell};

/// Has a handle hold the keys of a text, in place of what it holds; no zone has a rule then. Refused by `BadText` and `NoMemory`; what was held
/// stays then. After `BadText` the fault is in the room, its line and column, and what is wrong there, and `written` has how many octets that
/// is, else 0.
pub fn read_access(
    alloc: Global,
    updates: &mut UpdatesHandle,
    text: &[u8],
    buffer: &mut [u8],
    written: &mut usize,
) -> Outcome
    ensures access { ReadsAccess text.now updates.old.held result updates.new.held }
    ensures told { TellsFault result written.new buffer.old buffer.new }
{
    let mut told = String::new(alloc);
    let outcome = read_held(alloc, updates, text, &mut told);
    *written = give_fault(outcome, told.as_bytes(), buffer);
    outcome
}

/// The same, with what is told as a text.
fn read_held(alloc: Global, updates: &mut UpdatesHandle, text: &[u8], told: &mut String) -> Outcome
    ensures { ReadsAccess text.now updates.old.held result updates.new.held }
{
    match UpdateAccess::read(alloc, text) {
        Ok(read) => put_access(alloc, updates, read),
        Err(KeyFileError::Memory) => Outcome::NoMemory,
        Err(KeyFileError::Fault(fault)) => told_fault(&fault, told),
    }
}

/// Has a handle hold keys; `NoMemory` leaves what it holds.
fn put_access(alloc: Global, updates: &mut UpdatesHandle, read: UpdateAccess) -> Outcome
    ensures { ((result ≡ Outcome.Done) × (updates.new.held ≡ Some read))
        ⊎ ((result ≡ Outcome.NoMemory) × (updates.new.held ≡ updates.old.held)) }
{
    match Box::new(alloc, read) {
        Ok(read) => {
            updates.put(read);
            Outcome::Done
        }
        Err(_) => Outcome::NoMemory,
    }
}

/// Tells a fault.
fn told_fault(fault: &KeyFileFault, told: &mut String) -> Outcome
    ensures { (result ≡ Outcome.BadText) ⊎ (result ≡ Outcome.NoMemory) }
{
    match write!(told, "{fault}\n") {
        Ok(()) => Outcome::BadText,
        Err(_) => Outcome::NoMemory,
    }
}

/// Writes the fault of a text that is refused into the room, as much of it as the room takes, and gives how many octets that is.
fn give_fault(outcome: Outcome, fault: &[u8], buffer: &mut [u8]) -> usize
    ensures { TellsFault outcome result buffer.old buffer.new }
{
    match outcome {
        Outcome::BadText => tell(Outcome::BadText, fault, buffer),
        _ => 0,
    }
}

/// Adds a rule that grants or denies what it is about, behind those that the zone has. Refused by `NoKeys`, `NoKey`, `BadScope`, `BadName` and
/// `NoMemory`; nothing changes then.
#[tactic(auto, using(crate::proofs::CallFacts::ruled_held))]
pub fn add_rule(alloc: Global, updates: &mut UpdatesHandle, texts: &RuleTexts<'_>) -> UpdateOutcome
    ensures { RulesHeld texts.now updates.old.held result updates.new.held }
{
    match updates.take(alloc) {
        Some(mut held) => {
            let outcome = add_rule_in(alloc, &mut held, texts);
            updates.put(held);
            outcome
        }
        None => UpdateOutcome::NoKeys,
    }
}

/// The same of keys.
#[tactic(auto, using(crate::proofs::CallFacts::no_rule, crate::proofs::CallFacts::no_key, crate::proofs::CallFacts::added, crate::proofs::CallFacts::not_added))]
fn add_rule_in(alloc: Global, access: &mut UpdateAccess, texts: &RuleTexts<'_>) -> UpdateOutcome
    ensures { IsRuled texts.now access.old result access.new }
{
    let ZoneRule { origin, rule } = match rule_of(alloc, texts) {
        Ok(read) => read,
        Err(outcome) => return outcome,
    };
    if !access.has_key(&rule.key) {
        return UpdateOutcome::NoKey;
    }
    match access.add_rule(alloc, origin, rule) {
        Ok(()) => UpdateOutcome::Usual(Outcome::Done),
        Err(_) => UpdateOutcome::Usual(Outcome::NoMemory),
    }
}

/// Gives the memory of what a handle holds back, and wipes the secrets. It holds nothing then.
pub fn free(alloc: Global, updates: &mut UpdatesHandle)
    ensures { updates.new.held ≡ None }
{
    drop(mem::replace(updates, UpdatesHandle::empty(alloc)));
}
