//! The data of NSEC, NSEC3 and NSEC3PARAM records, written.
ghost use Rattle.std.specs.Prelude.{◌≡◌, ◌≤◌, ◌++◌, OnOk, length};
ghost use Rattle.zone_proto.specs.Names.{IsName};
ghost use Rattle.message_writing.specs.DataText.{counted_text, hashing_text, nsec_text, nsec3_text, nsec3param_text};

use crate::name_writer::push_wire;
use crate::numbers::push_short;
use crate::type_map::push_types;
use std::alloc::AllocError;
use zone_proto::{NSEC, NSEC3, NSEC3PARAM};

/// Appends the data of an NSEC record (RFC 4034 section 4.1).
pub(crate) fn push_nsec(out: &mut Vec<u8>, nsec: &NSEC) -> Result<(), AllocError>
    ensures text { OnOk result (out.new.items ≡ out.old.items ++ nsec_text nsec.now) }
    ensures name { OnOk result (IsName nsec.now.next_domain_name) }
{
    push_wire(out, nsec.next_domain_name.labels())?;
    push_types(out, nsec.types.as_slice())
}

/// Appends the data of an NSEC3 record (RFC 5155 section 3.2).
pub(crate) fn push_nsec3(out: &mut Vec<u8>, nsec3: &NSEC3) -> Result<(), AllocError>
    requires salt { length nsec3.now.salt ≤ 255 }
    requires hash { length nsec3.now.next_hashed_owner_name ≤ 255 }
    ensures { OnOk result (out.new.items ≡ out.old.items ++ nsec3_text nsec3.now) }
{
    push_hashing(
        out,
        nsec3.algorithm,
        nsec3.opt_out,
        nsec3.iterations,
        nsec3.salt.as_slice(),
    )?;
    push_counted(out, nsec3.next_hashed_owner_name.as_slice())?;
    push_types(out, nsec3.types.as_slice())
}

/// Appends the data of an NSEC3PARAM record (RFC 5155 section 4.2).
pub(crate) fn push_nsec3param(out: &mut Vec<u8>, param: &NSEC3PARAM) -> Result<(), AllocError>
    requires { length param.now.salt ≤ 255 }
    ensures { OnOk result (out.new.items ≡ out.old.items ++ nsec3param_text param.now) }
{
    push_hashing(
        out,
        param.algorithm,
        param.opt_out,
        param.iterations,
        param.salt.as_slice(),
    )
}

/// Appends what NSEC3 and NSEC3PARAM begin with.
fn push_hashing(
    out: &mut Vec<u8>,
    algorithm: u8,
    opt_out: bool,
    iterations: u16,
    salt: &[u8],
) -> Result<(), AllocError>
    requires { length salt.now ≤ 255 }
    ensures { OnOk result (out.new.items
        ≡ out.old.items ++ hashing_text algorithm opt_out iterations salt.now) }
{
    out.push(algorithm)?;
    out.push(u8::from(opt_out))?;
    push_short(out, iterations)?;
    push_counted(out, salt)
}

/// Appends octets behind an octet that counts them.
fn push_counted(out: &mut Vec<u8>, octets: &[u8]) -> Result<(), AllocError>
    requires { length octets.now ≤ 255 }
    ensures { OnOk result (out.new.items ≡ out.old.items ++ counted_text octets.now) }
{
    out.push(octets.len() as u8)?;
    out.extend_from_slice(octets)
}
