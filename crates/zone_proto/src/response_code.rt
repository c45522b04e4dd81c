//! Response codes (RFC 1035 section 4.1.1, RFC 6895 section 2.3).
use std::fmt;

/// A response code (RFC 1035 section 4.1.1, RFC 6895 section 2.3).
#[derive(Clone, Copy, PartialEq, Eq, Debug)]
pub enum ResponseCode {
    /// 0: no error.
    NoError,
    /// 1: the server couldn't read the query.
    FormErr,
    /// 2: the server failed.
    ServFail,
    /// 3: the name doesn't exist.
    NXDomain,
    /// 4: the server doesn't do this.
    NotImp,
    /// 5: the server refuses.
    Refused,
    /// Any other number.
    Other(u16),
}

/// The word of the code, or `RCODE` and the number.
impl fmt::Display for ResponseCode {
    ghost use Rattle.std.specs.Prelude.{Some};
    ghost use Rattle.zone_proto.specs.TypeText.{response_code_text};

    ghost output = { λ c. Some (response_code_text c) };

    fn fmt<W: fmt::Write>(&self, f: &mut fmt::Formatter<W>) -> fmt::Result {
        match *self {
            ResponseCode::NoError => write!(f, "NoError"),
            ResponseCode::FormErr => write!(f, "FormErr"),
            ResponseCode::ServFail => write!(f, "ServFail"),
            ResponseCode::NXDomain => write!(f, "NXDomain"),
            ResponseCode::NotImp => write!(f, "NotImp"),
            ResponseCode::Refused => write!(f, "Refused"),
            ResponseCode::Other(number) => write!(f, "RCODE{number}"),
        }
    }
}
