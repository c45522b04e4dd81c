//! The session of the program: the zone that it keeps, and what each command does to it.
ghost use Rattle.std.specs.Prelude.{◌≡◌, OnOk};
ghost use Rattle.std.specs.String.{string_bytes};
ghost use Rattle.zone_proto.specs.Names.{lower};
ghost use Rattle.zonectl_session.specs.Sessions.{IsAnswer};
ghost use Rattle.zonectl_session.specs.Steps.{empty_zone, IsAdded, IsDropped, AddsTo, Carries};

use crate::circle::circle;
use crate::demo_signer::DemoSigner;
use crate::replies::{deny, lookup, transfer};
use crate::signing::{add_key, renew, secure};
use std::alloc::AllocError;
use zone_handler::{AxfrPolicy, ZoneType};
use zone_in_memory::InMemoryZoneHandler;
use zone_proto::{Name, NxProofKind, Record, RrKey};
use zone_sha1::Sha1Hash;
use zonectl_commands::{Command, Session};

/// The zone that the program keeps.
pub type Zone = InMemoryZoneHandler<DemoSigner, Sha1Hash>;

/// A zone without records and signers, which denies what it doesn't hold in this way once it is secured. The program is its
/// source, and transfers it to anybody.
pub fn empty_zone(origin: Name, nx_proof_kind: Option<NxProofKind>) -> Zone
    ensures { result ≡ empty_zone (lower origin) nx_proof_kind }
{
    InMemoryZoneHandler::empty(
        origin,
        ZoneType::Primary,
        AxfrPolicy::AllowAll,
        nx_proof_kind,
        Sha1Hash,
    )
}

/// The zone that the program keeps, and the moment at which it was last secured, in seconds since 1970; 0 before that.
#[derive(Drop)]
pub struct Served {
    pub zone: Zone,
    pub moment: u64,
}

impl Session for Served {
    ghost carries = { IsAnswer };

    fn carry_out(&mut self, command: Command, answer: &mut String) -> Result<(), AllocError> {
        carry_out(self, command, answer)
    }
}

/// Carries out a command, and adds its answer to the text. An error says that memory was refused for the text.
fn carry_out(served: &mut Served, command: Command, answer: &mut String) -> Result<(), AllocError>
    ensures { OnOk result
        (Carries served.old command
        (string_bytes answer.old) (string_bytes answer.new) served.new) }
{
    match command {
        Command::Add(record) => add(served, record, answer),
        Command::Drop(key) => drop_set(served, &key, answer),
        Command::Kind(nx_proof_kind) => renew(served, nx_proof_kind, answer),
        Command::Key(number) => add_key(served, number, answer),
        Command::Secure(now) => secure(served, now, answer),
        Command::Lookup {
            name,
            record_type,
            options,
        } => lookup(served, &name, record_type, options, answer),
        Command::Deny(key) => deny(served, &key, answer),
        Command::Circle => circle(served, answer),
        Command::Transfer(options) => transfer(served, options, answer),
    }
}

/// Upserts a record with the zone's serial.
fn add(served: &mut Served, record: Record, answer: &mut String) -> Result<(), AllocError>
    ensures { OnOk result
        (AddsTo (λ reply. IsAdded served.old «record» reply served.new) answer.old answer.new) }
{
    let serial = served.zone.serial();
    match served.zone.upsert(record, serial) {
        Ok(true) => answer.push_str("yes\n"),
        Ok(false) => answer.push_str("no\n"),
        Err(_) => answer.push_str("error Memory\n"),
    }
}

/// Takes a record set out, and says whether it was there.
fn drop_set(served: &mut Served, key: &RrKey, answer: &mut String) -> Result<(), AllocError>
    ensures { OnOk result
        (AddsTo (λ reply. IsDropped served.old key.now reply served.new) answer.old answer.new) }
{
    match served.zone.remove_set(key) {
        Some(_) => answer.push_str("yes\n"),
        None => answer.push_str("no\n"),
    }
}
