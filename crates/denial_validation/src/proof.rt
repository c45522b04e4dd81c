/// What the records of a denial prove of a name and a type. Where they prove several of these, the first in this order is
/// told. A delegation that opt-out may have left out comes before all where DS is asked, and else after no data by a wildcard.
///
/// Nothing is told of a name below a zone cut or a DNAME, where the records show it. By NSEC3 records that show none of the name's
/// ancestors but one, a cut between isn't excluded: NSEC3 records show a cut by its own record alone (RFC 5155 section 8.3).
///
/// `opted_out` says that the record which shows that the name doesn't exist has the flag Opt-Out: there may be an unsigned
/// delegation at the name or below it, so that the response is insecure, and the AD bit may not be set (RFC 5155 section 9.2).
/// It is never so by NSEC records.
#[derive(Clone, Copy, PartialEq, Eq, Debug)]
pub enum Proof {
    /// The name doesn't exist, and nor does the wildcard that would answer in its place: NXDomain is right (RFC 4035 section
    /// 3.1.3.2, RFC 5155 section 8.4).
    NameError {
        /// Whether opt-out may have left out what is there.
        opted_out: bool,
    },
    /// The name is a zone cut below the apex, and the parent has no DS of it, so that the child isn't signed by the
    /// parent's word (RFC 4035 section 5.2, RFC 5155 section 8.9). By NSEC3 records with the flag Opt-Out: if the name
    /// is there, it is such a cut, or is above such ones and owns nothing.
    UnsignedDelegation,
    /// The name owns no set of any type, and is above names that do (RFC 4592 section 2.2.2).
    EmptyNonTerminal,
    /// The name owns no set of the type, and no alias either (RFC 4035 section 3.1.3.1, RFC 5155 sections 8.5 and 8.6).
    NoData,
    /// The name doesn't exist, and the wildcard that answers in its place has no set of the type (RFC 4035 section 3.1.3.4,
    /// RFC 5155 section 8.7).
    WildcardNoData {
        /// Whether opt-out may have left out what is there.
        opted_out: bool,
    },
    /// The name doesn't exist, so that an answer that was made from the wildcard at its closest encloser is right (RFC
    /// 4035 section 3.1.3.3, RFC 5155 section 8.8).
    WildcardAnswer {
        /// How many labels the closest encloser has. The RRSIG record of such an answer has this number in its labels field
        /// (RFC 4034 section 3.1.3).
        encloser_labels: usize,
        /// Whether opt-out may have left out what is there.
        opted_out: bool,
    },
}
