//! The options of a response.
ghost use Rattle.std.specs.Prelude.{◌≡◌, ◌<◌, ◌++◌, IsTrue, OnOk, length};
ghost use Rattle.message_options.specs.Options.{ends_with_opt, option_text, with_options};

use std::alloc::AllocError;

/// How many octets an OPT record without options has (RFC 6891 section 6.1.2).
const OPT_OCTETS: usize = 11;

/// Appends an option, of a code and a value, to options (RFC 6891 section 6.1.2). Fails only for lack of memory.
pub fn push_option(options: &mut Vec<u8>, code: u16, value: &[u8]) -> Result<(), AllocError>
    requires { length value.now < 65536 }
    ensures { OnOk result (options.new.items ≡ options.old.items ++ option_text code value.now) }
{
    let count = value.len() as u16;
    options.extend_from_slice(&[
        (code / 256) as u8,
        (code % 256) as u8,
        (count / 256) as u8,
        (count % 256) as u8,
    ])?;
    options.extend_from_slice(value)
}

/// Whether octets end with an OPT record without options. Doesn't allocate.
#[tactic(auto, unfolding(crate::specs::Options::ends_with_opt))]
pub fn ends_with_opt(octets: &[u8]) -> bool
    ensures { result ≡ ends_with_opt octets.now }
{
    let size = octets.len();
    if size < OPT_OCTETS {
        return false;
    }
    let at = size - OPT_OCTETS;
    octets[at] == 0
        && octets[at + 1] == 0
        && octets[at + 2] == 41
        && octets[at + 9] == 0
        && octets[at + 10] == 0
}

/// Puts options into the OPT record with which a response ends: their octets, as `push_option` makes them. Fails only for lack of
/// memory, and what is left is no response then.
#[tactic(auto, unfolding(crate::specs::Options::with_options))]
pub fn put_options(response: &mut Vec<u8>, options: &[u8]) -> Result<(), AllocError>
    requires opt { IsTrue (ends_with_opt response.old.items) }
    requires size { length options.now < 65536 }
    ensures { OnOk result (response.new.items ≡ with_options options.now response.old.items) }
{
    let count = options.len() as u16;
    response.truncate(response.len().saturating_sub(2));
    response.extend_from_slice(&[(count / 256) as u8, (count % 256) as u8])?;
    response.extend_from_slice(options)
}
