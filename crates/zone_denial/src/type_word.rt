//! Types as they are reported.
use std::fmt;
use zone_proto::RecordType;

/// A type by its mnemonic; DNAME too, for which [`RecordType`] prints none. Without one it is `TYPE` and its number (RFC 3597
/// section 5).
#[derive(Clone, Copy)]
pub struct TypeWord(pub RecordType);

impl fmt::Display for TypeWord {
    fn fmt<W: fmt::Write>(&self, f: &mut fmt::Formatter<W>) -> fmt::Result {
        if self.0 == RecordType::DNAME {
            return f.write_str("DNAME");
        }
        write!(f, "{}", self.0)
    }
}
