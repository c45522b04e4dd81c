//! Who may transfer a zone.

/// Who may transfer a zone whole (AXFR, RFC 5936), or what changed in it (IXFR, RFC 1995).
#[derive(Clone, Copy, PartialEq, Eq, Debug)]
pub enum TransferPolicy {
    /// Nobody.
    Deny,
    /// Anybody.
    AllowAll,
    /// Those whose request is signed (TSIG, RFC 8945).
    AllowSigned,
}
