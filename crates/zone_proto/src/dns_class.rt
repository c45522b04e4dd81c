//! Classes (RFC 1035 section 3.2.4).
ghost use Rattle.std.specs.Prelude.{Some};
ghost use Rattle.zone_proto.specs.TypeText.{class_text};

use std::fmt;

/// A class of records, by its number (RFC 1035 section 3.2.4).
#[derive(Clone, Copy, PartialEq, Eq, Debug)]
pub struct DNSClass(pub u16);

impl DNSClass {
    /// The Internet.
    pub const IN: DNSClass = DNSClass(1);

    /// Chaos.
    pub const CH: DNSClass = DNSClass(3);

    /// In an update: there is no such record, or one goes (RFC 2136 sections 2.4 and 2.5).
    pub const NONE: DNSClass = DNSClass(254);

    /// In a query any class; in an update any records (RFC 2136 sections 2.4 and 2.5).
    pub const ANY: DNSClass = DNSClass(255);
}

/// `IN`, `CH`, or `CLASS` and the number (RFC 3597 section 5).
impl fmt::Display for DNSClass {
    ghost output = { λ c. Some (class_text c.0) };

    fn fmt<W: fmt::Write>(&self, f: &mut fmt::Formatter<W>) -> fmt::Result {
        match *self {
            DNSClass::IN => write!(f, "IN"),
            DNSClass::CH => write!(f, "CH"),
            DNSClass(number) => write!(f, "CLASS{number}"),
        }
    }
}
