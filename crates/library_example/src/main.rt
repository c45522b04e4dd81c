//! A program that keeps a zone, adds records to it and queries it.
#![tactic(auto)]

mod judged;
mod no_hash;

use judged::judge_a_denial;
use line_text::{RecordText, Words, read_record};
use no_hash::NoHash;
use std::alloc::Global;
use zone_handler::{
    AuthLookup, AxfrPolicy, LookupError, LookupOptions, Request, ZoneHandler, ZoneTransfer,
    ZoneType,
};
use zone_proto::{DNSClass, LowerName, Name, Query, RData, Record, RecordType};
use zone_store::{InMemoryZoneHandler, NoSigner};

/// A zone that is never signed.
type Zone = InMemoryZoneHandler<NoSigner, NoHash>;

fn main(rt: HostRuntime) -> anyhow::Result<()> {
    let alloc = rt.alloc();
    let origin = Name::parse(alloc, "example.com.")?;
    let mut zone = Zone::empty(
        origin,
        ZoneType::Primary,
        AxfrPolicy::AllowAll,
        None,
        NoHash,
    );
    serve(&rt, alloc, &mut zone)?;
    judge_a_denial(&rt, alloc)
}

/// Puts three records into the zone, asks it five questions, and has it list all that it holds.
fn serve(rt: &impl Print, alloc: Global, zone: &mut Zone) -> anyhow::Result<()> {
    // A record read from a line of text.
    let line = b"example.com. 3600 SOA ns.example.com. host.example.com. 1 7200 600 86400 300";
    add(rt, zone, read_record(alloc, &mut Words::new(line))?)?;
    let line = b"example.com. 3600 MX 10 www.example.com.";
    add(rt, zone, read_record(alloc, &mut Words::new(line))?)?;
    // A record made of its parts.
    let owner = Name::parse(alloc, "www.example.com.")?;
    let address = RData::A([192, 0, 2, 1]);
    add(rt, zone, Record::from_rdata(owner, 60, address))?;

    ask(rt, alloc, zone, "WWW.example.com.", RecordType::A)?;
    ask(rt, alloc, zone, "www.example.com.", RecordType::AAAA)?;
    ask(rt, alloc, zone, "ftp.example.com.", RecordType::A)?;
    ask(rt, alloc, zone, "example.org.", RecordType::A)?;
    ask(rt, alloc, zone, "example.com.", RecordType::MX)?;
    transfer(rt, alloc, zone)
}

/// Puts a record into the zone with the zone's serial, and prints whether the zone took it.
fn add(rt: &impl Print, zone: &mut Zone, record: Record) -> anyhow::Result<()> {
    let serial = zone.serial();
    let is_taken = zone.upsert(record, serial)?;
    println!(rt; "taken: {is_taken}")?;
    Ok(())
}

/// Asks the zone, and prints what it answers.
fn ask(
    rt: &impl Print,
    alloc: Global,
    zone: &Zone,
    name: &str,
    record_type: RecordType,
) -> anyhow::Result<()> {
    let name = LowerName::parse(alloc, name)?;
    println!(rt; "{name} {record_type}:")?;
    let reply = zone.lookup(&name, record_type, None, LookupOptions::default(), 0);
    match reply.map_result() {
        Some(Ok(answer)) => print_records(rt, &answer)?,
        Some(Err(LookupError::NameExists)) => println!(rt; "NoError, and no data")?,
        // NXDomain or Refused.
        Some(Err(LookupError::ResponseCode(code))) => println!(rt; "{code}")?,
        // Out of memory.
        Some(Err(error)) => return Err(error.into()),
        None => println!(rt; "this handler has nothing to say")?,
    }
    Ok(())
}

/// Prints what answers the question, and what may help beside it. The answer lends its records.
fn print_records(rt: &impl Print, answer: &AuthLookup) -> anyhow::Result<()> {
    for record in answer {
        println!(rt; "{}", RecordText(record))?;
    }
    if let Some(additionals) = answer.additionals() {
        for record in additionals {
            println!(rt; "beside it: {}", RecordText(record))?;
        }
    }
    Ok(())
}

/// Asks for the whole zone, as a server does that keeps a copy of it, and prints it.
fn transfer(rt: &impl Print, alloc: Global, zone: &Zone) -> anyhow::Result<()> {
    println!(rt; "the whole zone:")?;
    let request = transfer_request(alloc, zone)?;
    match zone.zone_transfer(&request, LookupOptions::default(), 0) {
        Some((Ok(transfer), _)) => print_transfer(rt, &transfer),
        // Refused by the policy, or lack of memory.
        Some((Err(error), _)) => Err(error.into()),
        None => Ok(()),
    }
}

/// A request with one question: the transfer (AXFR) of the zone.
fn transfer_request(alloc: Global, zone: &Zone) -> anyhow::Result<Request> {
    let name = zone.origin().clone()?;
    let mut queries = Vec::new(alloc);
    queries.push(Query {
        name,
        query_type: RecordType::AXFR,
        query_class: DNSClass::IN,
    })?;
    Ok(Request { queries })
}

/// Prints the records of a transfer, which lends them too.
fn print_transfer(rt: &impl Print, transfer: &ZoneTransfer) -> anyhow::Result<()> {
    for record in transfer {
        println!(rt; "{}", RecordText(record))?;
    }
    Ok(())
}
