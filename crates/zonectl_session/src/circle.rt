//! The command that lists the owners of the sets of denial.
ghost use Rattle.std.specs.Prelude.{◌≡◌, codes, option_copied, option_map, OnOk, Some};
ghost use Rattle.zone_proto.specs.Text.{name_text};
ghost use Rattle.zone_map.specs.DenialOwners.{denial_owners};
ghost use Rattle.zonectl_session.specs.Replies.{list_text};
ghost use Rattle.zonectl_session.specs.Steps.{denial_type, IsCircled, AddsTo};

use crate::demo_signer::DemoSigner;
use crate::session::Served;
use std::alloc::AllocError;
use std::fmt;
use std::fmt::Write;
use zone_handler::ZoneHandler;
use zone_in_memory::InnerInMemory;
use zone_proto::{NxProofKind, RecordType};

/// Lists the owners of the sets that deny what the zone doesn't hold: of its NSEC sets or of its NSEC3 sets, as its kind says. A
/// zone without a kind has none to list. Where the list finds no memory the answer says that in its place, and the next line can
/// be served.
pub fn circle(served: &Served, answer: &mut String) -> Result<(), AllocError>
    ensures { OnOk result (AddsTo (IsCircled served.now) answer.old answer.new) }
{
    let Some(record_type) = denial_type(served.zone.nx_proof_kind()) else {
        return answer.push_str("circle 0\n");
    };
    let text = OwnersText {
        inner: served.zone.inner(),
        record_type,
    };
    // All of its room is found before any of it is written.
    if answer.reserve(octets_of(&text)).is_err() {
        return answer.push_str("error Memory\n");
    }
    write!(answer, "{text}")
}

/// The type of the sets by which a zone of a kind denies.
fn denial_type(nx_proof_kind: Option<&NxProofKind>) -> Option<RecordType>
    ensures { option_map (λ t. t.0) result ≡ denial_type (option_copied nx_proof_kind.entry) }
{
    match nx_proof_kind {
        Some(NxProofKind::Nsec) => Some(RecordType::NSEC),
        Some(NxProofKind::Nsec3 { .. }) => Some(RecordType::NSEC3),
        None => None,
    }
}

/// The owners of the sets of a type of denial as text, after their count.
#[derive(Drop)]
struct OwnersText<'z> {
    inner: &'z InnerInMemory<DemoSigner>,
    record_type: RecordType,
}

impl fmt::Display for OwnersText<'_> {
    ghost output = { λ owners. Some (list_text (codes "circle") name_text
        (denial_owners owners.inner.now.records owners.record_type.0)) };

    fn fmt<W: fmt::Write>(&self, f: &mut fmt::Formatter<W>) -> fmt::Result {
        let mut count = 0u64;
        for _ in self.inner.denial_owners(self.record_type) {
            count = count.saturating_add(1);
        }
        writeln!(f, "circle {count}")?;
        for owner in self.inner.denial_owners(self.record_type) {
            writeln!(f, "{owner}")?;
        }
        Ok(())
    }
}

/// Counts the octets that are written, and keeps none.
#[derive(Drop)]
struct OctetCount(usize);

impl fmt::Write for OctetCount {
    fn write_str(&mut self, text: &str) -> fmt::Result {
        self.0 = self.0.saturating_add(text.len());
        Ok(())
    }
}

/// How many octets a text has.
fn octets_of(text: &OwnersText<'_>) -> usize {
    let mut counted = OctetCount(0);
    let _ = write!(counted, "{text}");
    counted.0
}
