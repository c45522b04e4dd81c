//! Why a zone could not be secured.
/// Why a zone isn't secured. Where there are several causes, the first of them here is told; `Memory` may come instead of any
/// but `TimeOutOfRange`. `CnameAtOrigin`, `Hash` and `OwnerTooLong` are of zones that are denied by NSEC3 (RFC 5155).
#[derive(Clone, Copy, PartialEq, Eq, Debug)]
pub enum SecureError {
    /// The moment is past the year 9999 (253402300799 seconds since 1970).
    TimeOutOfRange,
    /// The zone is denied by NSEC3, and a CNAME is at its origin, beside which no NSEC3PARAM may stand.
    CnameAtOrigin,
    /// The hash of the zone has no digest of a name.
    Hash,
    /// The digest of a name makes no owner of an NSEC3: its text is empty or longer than a label may be, or the owner would be
    /// longer than a name may be.
    OwnerTooLong,
    /// No memory was found.
    Memory,
}
