//! A signed zone denies a name, and its denial is judged as a validator does.
ghost use Rattle.std.specs.Prelude.{◌≡◌, map, IfOk};
ghost use Rattle.zone_proto.specs.Types.{A};
ghost use Rattle.zone_handler.specs.AuthLookup.{records_of};
ghost use Rattle.denial_validation.specs.Judgement.{nsec_proof};
ghost use Rattle.denial_validation.specs.NsecRecords.{lent_nsec};

use denial_validation::{Proof, nsec};
use line_text::{RecordText, Words, read_record};
use std::alloc::{AllocError, Global};
use zone_handler::{AuthLookup, AxfrPolicy, LookupError, LookupOptions, ZoneHandler, ZoneType};
use zone_proto::{LowerName, Name, NxProofKind, Record, RecordType};
use zone_store::InMemoryZoneHandler;
use zone_store::program::{DemoSigner, Sha1Hash};

/// The moment at which the zone is signed, in seconds since 1970.
const NOW: u64 = 1_081_535_779;

/// A zone that is signed by the program's signer, which is no cryptography.
type SignedZone = InMemoryZoneHandler<DemoSigner, Sha1Hash>;

/// Makes a zone with NSEC records, and has the denial of a name judged that isn't there.
pub fn judge_a_denial(rt: &impl Print, alloc: Global) -> anyhow::Result<()> {
    let origin = Name::parse(alloc, "example.com.")?;
    let mut zone = SignedZone::empty(
        origin,
        ZoneType::Primary,
        AxfrPolicy::Deny,
        Some(NxProofKind::Nsec),
        Sha1Hash,
    );
    fill(alloc, &mut zone)?;
    let absent = LowerName::parse(alloc, "b.example.com.")?;
    println!(rt; "the NSEC records that deny {absent}:")?;
    match zone
        .nsec_records(&absent, LookupOptions::default())
        .map_result()
    {
        Some(Ok(denial)) => judge(rt, alloc, zone.origin(), &absent, &denial),
        // Out of memory.
        Some(Err(error)) => Err(error.into()),
        None => Ok(()),
    }
}

/// Puts an SOA and two addresses into the zone, and signs it.
fn fill(alloc: Global, zone: &mut SignedZone) -> anyhow::Result<()> {
    let line = b"example.com. 3600 SOA ns.example.com. host.example.com. 1 7200 600 86400 300";
    zone.upsert(read_record(alloc, &mut Words::new(line))?, 1)?;
    let line = b"a.example.com. 60 A 192.0.2.1";
    zone.upsert(read_record(alloc, &mut Words::new(line))?, 1)?;
    let line = b"c.example.com. 60 A 192.0.2.2";
    zone.upsert(read_record(alloc, &mut Words::new(line))?, 1)?;
    let signer = DemoSigner::new(7, zone.origin())?;
    // The signer has a key, and the moment is in range: what is left is lack of memory.
    if zone.add_zone_signing_key_mut(signer).is_err() || zone.secure_zone_mut(NOW).is_err() {
        return Err(LookupError::Memory.into());
    }
    Ok(())
}

/// Has each record of a name's denial judged by itself, then all of them, and then all of them for another name.
fn judge(
    rt: &impl Print,
    alloc: Global,
    apex: &LowerName,
    absent: &LowerName,
    denial: &AuthLookup,
) -> anyhow::Result<()> {
    let records = lent(alloc, denial)?;
    for record in &records {
        println!(rt; "{}", RecordText(record))?;
        let proof = proof_of_a(apex, &[*record], absent);
        print_proof(rt, "alone it proves", proof)?;
    }
    let proof = proof_of_a(apex, records.as_slice(), absent);
    print_proof(rt, "they prove", proof)?;
    // A name that is there: genuine records, shown in the wrong place.
    let present = LowerName::parse(alloc, "c.example.com.")?;
    println!(rt; "shown for {present}:")?;
    let proof = proof_of_a(apex, records.as_slice(), &present);
    print_proof(rt, "they prove", proof)
}

/// The records of an answer, lent in a list.
fn lent(alloc: Global, answer: &AuthLookup) -> Result<Vec<&Record>, AllocError>
    ensures { IfOk result (λ lent. map (λ r. r.now) lent.items ≡ records_of answer.now) }
{
    answer.iter().collect(alloc)
}

/// What the records prove of a name and the type A, to a validator that has checked their signatures.
fn proof_of_a(apex: &LowerName, records: &[&Record], name: &LowerName) -> Option<Proof>
    ensures { result ≡ nsec_proof apex.now (lent_nsec records.now) name.now A }
{
    nsec::proof(apex, records, name, RecordType::A)
}

/// Prints what records prove, after words that say which.
fn print_proof(rt: &impl Print, words: &str, proof: Option<Proof>) -> anyhow::Result<()> {
    match proof {
        Some(proof) => println!(rt; "{words} {proof:?}")?,
        None => println!(rt; "{words} nothing")?,
    }
    Ok(())
}
