//! A plan as it is held while its signatures are made.
ghost use Rattle.std.specs.Prelude.{◌≡◌, ◌⊎◌, ◌++◌, [], ◌∷◌, drop, slice_get, None, Some, IfErr, IfOk, OnErr, OnOk, option_and_then, option_copied};
ghost use Rattle.std.specs.Option.{option_map_or};
ghost use Rattle.zone_lookup.specs.StartOfAuthority.{first_soa};
ghost use Rattle.zone_map.specs.Zones.{IsZone, set_at};
ghost use Rattle.zone_planning.specs.Faults.{IsUnwritableUnless};
ghost use Rattle.held_plans.specs.Asking.{AreSignable};
ghost use Rattle.held_plans.specs.Holding.{IsBegun, IsUnplanned, finished_sets, made_plan, unfinished_fault};

use crate::asking::{AskedSignature, asked};
use crate::copies::{copy_of, unsigned};
use std::alloc::{AllocError, Global};
use std::collections::VecDeque;
use std::marker::Model;
use zone_lookup::start_of_authority::first_soa;
use zone_map::RecordMap;
use zone_planner::{PlannedKey, Request, make_plan};
use zone_planning::{FinishFault, Plan, PlanFault, finish};
use zone_proto::{DNSKEY, LowerName, ProtoError, RecordType, RrKey, Seq};

/// A plan, what of it is still to be handed out to be signed, and the signatures that were given.
#[derive(Drop)]
pub struct HeldPlan {
    /// The origin of the zone.
    origin: LowerName,
    /// The serial of the zone that was planned.
    serial: u32,
    /// The zone with blank signatures, and the keys by their numbers.
    plan: Plan,
    /// What is still to be handed out.
    asked: VecDeque<AskedSignature>,
    /// The signatures that were given, in order.
    signatures: Vec<Seq<u8>>,
}

impl Model for HeldPlan {
    ghost use Rattle.held_plans.specs.PlanStates.{PlanState};

    ghost Value = { PlanState };

    ghost view = { λ h. record {
      origin = h.origin;
      serial = h.serial;
      records = h.plan.records;
      keys = h.plan.keys.items;
      asked = h.asked.items;
      signatures = h.signatures.items;
    } };
}

impl HeldPlan {
    /// A plan of the zone of an origin that has these sets, as [`make_plan`] makes it of them without the signatures, denials and keys
    /// that they have. Nothing is handed out yet, and no signature given.
    ///
    /// # Errors
    ///
    /// Those of [`make_plan`], and then `Unwritable` for data that no octets are.
    pub fn begin(
        alloc: Global,
        origin: &LowerName,
        records: &RecordMap,
        keys: Vec<PlannedKey>,
        request: &Request,
    ) -> Result<HeldPlan, PlanFault>
        ensures begun { IfOk result (IsBegun origin.now records.now keys.items request.now) }
        ensures fault { IfErr result (λ e. (e ≡ PlanFault.Memory)
            ⊎ IsUnplanned origin.now records.now keys.items request.now e) }
    {
        let unsigned = unsigned(alloc, records)?;
        let plan = make_plan(alloc, origin.clone()?, unsigned, keys, request)?;
        let asked = asked(alloc, &plan.records)?;
        let apex = RrKey::new(origin.clone()?, RecordType::SOA);
        Ok(HeldPlan {
            serial: serial_under(records, &apex),
            origin: apex.name,
            plan,
            asked,
            signatures: Vec::new(alloc),
        })
    }

    /// A plan that was made, of the zone of an origin that had this serial. Nothing is handed out yet, and no signature given.
    ///
    /// # Errors
    ///
    /// `Unwritable` for data that no octets are, and `Memory` where none is found.
    pub fn of_plan(
        alloc: Global,
        origin: LowerName,
        serial: u32,
        plan: Plan,
    ) -> Result<HeldPlan, PlanFault>
        ensures made { IfOk result (λ held. held
            ≡ made_plan origin serial plan.records plan.keys.items) }
        ensures fault { IfErr result (λ e. IsUnwritableUnless e (AreSignable plan.records)) }
    {
        match asked(alloc, &plan.records) {
            Ok(asked) => Ok(HeldPlan {
                origin,
                serial,
                plan,
                asked,
                signatures: Vec::new(alloc),
            }),
            Err(fault) => Err(fault),
        }
    }

    /// The same of a copy of a plan, which stays as it is.
    pub fn of_copy(
        alloc: Global,
        origin: LowerName,
        serial: u32,
        plan: &Plan,
    ) -> Result<HeldPlan, PlanFault>
        ensures made { IfOk result (λ held. held
            ≡ made_plan origin serial plan.now.records plan.now.keys.items) }
        ensures fault { IfErr result (λ e. IsUnwritableUnless e (AreSignable plan.now.records)) }
    {
        match plan_again(alloc, plan) {
            Ok(copy) => HeldPlan::of_plan(alloc, origin, serial, copy),
            Err(_) => Err(PlanFault::Memory),
        }
    }

    /// The origin of the zone.
    pub fn origin(&self) -> &LowerName
        ensures { result.now ≡ self.now.origin }
    {
        &self.origin
    }

    /// The serial of the zone that was planned; 0 without an SOA.
    pub fn serial(&self) -> u32
        ensures { result ≡ self.now.serial }
    {
        self.serial
    }

    /// What is to be signed next; None if all was handed out. Doesn't allocate.
    pub fn next(&self) -> Option<&AskedSignature>
        ensures { option_copied result ≡ slice_get self.now.asked 0 }
    {
        self.asked.front()
    }

    /// Leaves out what is to be signed next: it was handed out. Doesn't allocate.
    pub fn step(&mut self)
        ensures { self.new ≡ record self.old { asked = drop 1 self.old.asked } }
    {
        drop(self.asked.pop_front());
    }

    /// Takes the signature that comes next, in the order in which they are handed out. Fails only for lack of memory.
    pub fn sign(&mut self, alloc: Global, signature: &[u8]) -> Result<(), AllocError>
        ensures taken { OnOk result (self.new
            ≡ record self.old { signatures = self.old.signatures ++ signature.now ∷ [] }) }
        ensures same { OnErr result (self.new ≡ self.old) }
    {
        let Ok(signature) = Seq::from_slice(alloc, signature) else {
            return Err(AllocError);
        };
        match self.signatures.push(signature) {
            Ok(()) => Ok(()),
            Err(_) => Err(AllocError),
        }
    }

    /// The signatures that were given, in order.
    pub fn signatures(&self) -> &[Seq<u8>]
        ensures { result.now ≡ self.now.signatures }
    {
        self.signatures.as_slice()
    }

    /// The sets of the zone with the signatures that were given. The plan stays as it is, since what is done with them may be refused.
    ///
    /// # Errors
    ///
    /// Those of `finish` of `zone_planning`.
    pub fn finished(&self, alloc: Global) -> Result<RecordMap, FinishFault>
        ensures sets { IfOk result (λ sets. sets ≡ finished_sets self.now) }
        ensures zone { IfOk result IsZone }
        ensures faultless { OnOk result (unfinished_fault self.now ≡ None) }
        ensures fault { IfErr result (λ e. (e ≡ FinishFault.Memory)
            ⊎ (unfinished_fault self.now ≡ Some e)) }
    {
        let plan = plan_again(alloc, &self.plan)?;
        match finish(alloc, plan, self.signatures.as_slice()) {
            Ok(records) => Ok(records.compacted(alloc)?),
            Err(unfinished) => Err(unfinished.fault),
        }
    }
}

/// The serial of the SOA that the set under a key begins with; 0 without one (RFC 1035 section 3.3.13).
pub fn serial_under(records: &RecordMap, key: &RrKey) -> u32
    ensures { result
        ≡ option_map_or (λ a. a.serial)
        (option_and_then (λ s. first_soa s.records)
        (set_at records.now key.now.name key.now.record_type.0)) 0 }
{
    match records.get(key).and_then(first_soa) {
        Some(soa) => soa.serial,
        None => 0,
    }
}

/// A plan once more. Its only error is `Memory`.
fn plan_again(alloc: Global, plan: &Plan) -> Result<Plan, ProtoError>
    ensures records { IfOk result (λ copy. copy.records ≡ plan.now.records) }
    ensures keys { IfOk result (λ copy. copy.keys.items ≡ plan.now.keys.items) }
{
    let keys = keys_again(alloc, plan.keys.as_slice())?;
    let records = copy_of(alloc, &plan.records)?;
    Ok(Plan { records, keys })
}

/// Copies of keys. Its only error is `Memory`.
fn keys_again(alloc: Global, keys: &[DNSKEY]) -> Result<Vec<DNSKEY>, ProtoError>
    ensures { IfOk result (λ copies. copies.items ≡ keys.now) }
{
    let mut copies = Vec::with_capacity(alloc, keys.len())?;
    for key in keys {
        copies.push(key.clone()?)?;
    }
    Ok(copies)
}
