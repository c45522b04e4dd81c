//! The signatures of record sets, in a list by themselves.
ghost use Rattle.std.specs.Prelude.{◌≡◌, ◌<◌, ◌≤◌, ◌+◌, [], ◌++◌, ◌∷◌, length, take, drop, IfOk, OnOk, OnErr, IsOkUnless};
ghost use Rattle.zone_proto.specs.Types.{RRSIG};
ghost use Rattle.zone_proto.specs.Data.{type_of};
ghost use Rattle.zone_proto.specs.Sets.{AreSignatures};
ghost use Rattle.zone_proto.specs.Results.{IsChange};

use crate::error::ProtoError;
use crate::record::Record;
use std::alloc::Global;
use std::marker::Model;

/// The signatures of a record set apart from it: records of type RRSIG, in order (RFC 4034 section 3).
#[derive(Debug, Drop)]
pub struct Rrsigs {
    records: Vec<Record>,
}

impl Model for Rrsigs {
    ghost use Rattle.std.specs.Prelude.{List};
    ghost use Rattle.zone_proto.specs.declared.record.Record.{Record};
    ghost use Rattle.zone_proto.specs.Sets.{AreSignatures};

    ghost Value = { List Record };

    ghost view = { λ s. s.records.items };

    ghost invariant = { λ s. AreSignatures s.records.items };
}

impl Rrsigs {
    /// No signatures, and room for so many. Its only error is `Memory`.
    pub fn with_capacity(alloc: Global, count: usize) -> Result<Rrsigs, ProtoError>
        ensures ok { IfOk result (λ rrsigs. rrsigs ≡ []) }
        ensures err { IsOkUnless result ProtoError.Memory }
    {
        Ok(Rrsigs {
            records: Vec::with_capacity(alloc, count)?,
        })
    }

    /// Appends a signature to the others. The caller hands in a record of type RRSIG. `Memory` leaves them as they
    /// were.
    pub fn push(&mut self, rrsig: Record) -> Result<(), ProtoError>
        requires kind { type_of rrsig.rdata ≡ RRSIG }
        ensures { IsChange self.old (self.old ++ rrsig ∷ []) result self.new }
    {
        self.records.push(rrsig)?;
        Ok(())
    }

    /// How many there are.
    pub fn len(&self) -> usize
        ensures { result ≡ length self.now }
    {
        self.records.len()
    }

    /// Takes those from `start` on out, as a list with room for these alone. Its only error is `Memory`, which leaves
    /// them.
    pub fn split_off(&mut self, start: usize) -> Result<Rrsigs, ProtoError>
        requires { start ≤ length self.old }
        ensures ok { IfOk result (λ rrsigs. rrsigs ≡ drop start self.old) }
        ensures rest { OnOk result (self.new ≡ take start self.old) }
        ensures err { IsOkUnless result ProtoError.Memory }
        ensures same { OnErr result (self.new ≡ self.old) }
    {
        Ok(Rrsigs {
            records: self.records.split_off(start)?,
        })
    }

    /// Exchanges signatures, in order, with those from `start` on, and answers where the next ones stand. Where fewer
    /// are there, nothing is exchanged, and the answer is `start`. Doesn't allocate.
    pub(crate) fn exchange(&mut self, start: usize, others: &mut [Record]) -> usize
        requires { AreSignatures others.old }
        ensures others { length others.old ≤ length (drop start self.old)
            → others.new ≡ take (length others.old) (drop start self.old) }
        ensures own { length others.old ≤ length (drop start self.old)
            → self.new
            ≡ take start self.old ++ others.old ++ drop (start + length others.old) self.old }
        ensures next { length others.old ≤ length (drop start self.old)
            → result ≡ start + length others.old }
        ensures short { length (drop start self.old) < length others.old
            → (others.new ≡ others.old) × (self.new ≡ self.old) × (result ≡ start) }
        ensures kind { AreSignatures others.new }
    {
        let end = start.saturating_add(others.len());
        if end > self.records.len() {
            return start;
        }
        exchange_part(self.records.as_mut_slice(), start, others);
        end
    }

    /// The records.
    pub(crate) fn into_records(self) -> Vec<Record>
        ensures value { result.items ≡ self }
        ensures kind { AreSignatures self }
    {
        self.records
    }
}

/// Exchanges items with those from `start` on.
fn exchange_part(items: &mut [Record], start: usize, others: &mut [Record])
    requires { start + length others.old ≤ length items.old }
    ensures items { items.new
        ≡ take start items.old ++ others.old ++ drop (start + length others.old) items.old }
    ensures others { others.new ≡ take (length others.old) (drop start items.old) }
{
    let end = start + others.len();
    items[start..end].swap_with_slice(others);
}
