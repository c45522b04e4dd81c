//! Makes the calls that hash names for NSEC3 records, by the program's hash.

use crate::write::Answer;
use library_rows_arguments::Arguments;
use zone_handler::Nsec3QueryInfo;
use zone_proto::{LowerName, RecordType, base32_dnssec};
use zone_sha1::Sha1Hash;

/// Makes a call that hashes a name, or writes octets in base32hex.
pub fn make_hash_call(out: &mut Answer, verb: &str, arguments: &mut Arguments<'_>) {
    let octets = arguments.take_octets();
    if verb == "base32" {
        out.give(base32_dnssec(arguments.alloc, octets.as_slice()));
    } else {
        hash(out, verb, octets.as_slice(), arguments);
    }
}

/// Hashes a name with a salt.
fn hash(out: &mut Answer, verb: &str, salt: &[u8], arguments: &mut Arguments<'_>) {
    let (name, iterations) = (arguments.take_lower(), arguments.take_short());
    let query = Nsec3QueryInfo {
        qname: &name,
        qtype: RecordType::A,
        has_wildcard_match: false,
        algorithm: arguments.take_octet(),
        salt,
        iterations,
    };
    write_hash(out, verb, query, &arguments.take_lower());
}

/// Writes the digest of a name, or the owner of the set of the name, or of the wildcard at it.
fn write_hash(out: &mut Answer, verb: &str, query: Nsec3QueryInfo<'_>, zone: &LowerName) {
    let name = query.qname;
    match verb {
        "digest" => out.octets(query.hash_name(&Sha1Hash, name)),
        "owner" => out.give(query.hashed_owner_name(&Sha1Hash, name, zone)),
        _ => out.give(query.hashed_star_name(&Sha1Hash, name, zone)),
    }
}
