//! Responses as text.

use line_text::DataText;
use std::fmt;
use zone_proto::Record;
use zone_response::{Part, Response, Sent};

/// A response, by its sections; one without records is left out.
#[derive(Drop)]
pub struct ResponseText<'r, 'z>(pub &'r Response<'z>);

impl fmt::Display for ResponseText<'_, '_> {
    fn fmt<W: fmt::Write>(&self, f: &mut fmt::Formatter<W>) -> fmt::Result {
        let response = self.0;
        let flag = if response.authoritative { " aa" } else { "" };
        write!(f, ";; {}{flag}\n", response.code)?;
        write!(f, "{}", SectionText("ANSWER", &response.answers))?;
        write!(f, "{}", SectionText("AUTHORITY", &response.authorities))?;
        write!(f, "{}", SectionText("ADDITIONAL", &response.additionals))?;
        write!(f, "{}", SectionText("GLUE", &response.glue))?;
        if let Some(name) = &response.left_at {
            write!(f, ";; LEFT {name}\n")?;
        }
        Ok(())
    }
}

/// A section with its word.
#[derive(Drop)]
struct SectionText<'r, 'z>(&'static str, &'r [Sent<'z>]);

impl fmt::Display for SectionText<'_, '_> {
    fn fmt<W: fmt::Write>(&self, f: &mut fmt::Formatter<W>) -> fmt::Result {
        if self.1.is_empty() {
            return Ok(());
        }
        write!(f, ";; {}\n", self.0)?;
        for sent in self.1 {
            write!(f, "{}", SentText(sent))?;
        }
        Ok(())
    }
}

/// What is sent of a set.
#[derive(Drop)]
struct SentText<'r, 'z>(&'r Sent<'z>);

impl fmt::Display for SentText<'_, '_> {
    fn fmt<W: fmt::Write>(&self, f: &mut fmt::Formatter<W>) -> fmt::Result {
        let sent = self.0;
        let set = sent.set.set();
        if sent.part != Part::Signatures {
            for own in set.records_without_rrsigs() {
                write!(f, "{}", TimedText(own, sent.ttl))?;
            }
        }
        if sent.part != Part::Records {
            for rrsig in set.rrsigs() {
                if sent.covers(rrsig) {
                    write!(f, "{}", TimedText(rrsig, sent.ttl))?;
                }
            }
        }
        Ok(())
    }
}

/// A record with another TTL.
#[derive(Drop)]
struct TimedText<'r>(&'r Record, u32);

impl fmt::Display for TimedText<'_> {
    fn fmt<W: fmt::Write>(&self, f: &mut fmt::Formatter<W>) -> fmt::Result {
        let (record, ttl) = (self.0, self.1);
        let (class, record_type) = (record.dns_class, record.record_type());
        let data = DataText(&record.rdata);
        write!(f, "{} {ttl} {class} ", record.name)?;
        write!(f, "{record_type} {data}\n")
    }
}
