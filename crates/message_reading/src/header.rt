//! The header of a message.

/// How many octets a header has (RFC 1035 section 4.1.1).
pub const HEADER_OCTETS: usize = 12;

/// The header of a message (RFC 1035 section 4.1.1): its identifier, its flags and how many entries each section has.
#[derive(Clone, Copy, PartialEq, Eq, Debug)]
pub struct Header {
    /// The identifier, which the response repeats.
    pub id: u16,
    /// QR: a response, and no query.
    pub is_response: bool,
    /// The kind of query: 0 is a standard query.
    pub opcode: u8,
    /// AA: the server is an authority for the name.
    pub authoritative: bool,
    /// TC: the message was cut (RFC 2181 section 9).
    pub truncated: bool,
    /// RD: recursion is wanted.
    pub recursion_desired: bool,
    /// RA: recursion can be had.
    pub recursion_available: bool,
    /// Z: reserved, and to be clear.
    pub reserved: bool,
    /// AD: the data were verified (RFC 4035 section 3.2.3).
    pub authentic_data: bool,
    /// CD: the resolver is not to verify (RFC 4035 section 3.2.2).
    pub checking_disabled: bool,
    /// The low four bits of the response code.
    pub response_code: u8,
    /// How many questions there are.
    pub questions: u16,
    /// How many records answer.
    pub answers: u16,
    /// How many records the authority section has.
    pub authorities: u16,
    /// How many further records there are.
    pub additionals: u16,
}
