//! Transaction signatures, TSIG (RFC 8945): messages signed with keys that two hosts share.
//!
//! For those who answer requests, `check_request` finds the TSIG record of a request, reads it and checks it. `ResponseSigner` signs the
//! messages of the response, one after the other, and `refuse` writes the response to a request whose TSIG is refused: BADKEY, BADSIG,
//! BADTIME or BADTRUNC. For those who send them, `sign_request` signs a request, and a `ResponseChecker` checks the messages of the response,
//! one after the other.
//!
//! What octets say is defined in `message_reading`, and what a MAC is in `message_hmac`. Time comes in as a number of seconds since 1970:
//! nothing here reads a clock.
#![tactic(auto)]

mod checking;
mod key;
mod octets;
mod place;
mod records;
mod replies;
mod requesting;
mod response_checker;
mod signing;
mod texts;
mod tsig;
mod verdict;

pub use checking::{Checked, check_request};
pub use key::{Key, KeyZones};
pub use message_hmac::{Algorithm, Secret};
pub use place::{Place, place_of};
pub use requesting::{SignedRequest, sign_request};
pub use response_checker::{CheckedResponse, ResponseChecker, ResponseFault};
pub use signing::{FUDGE, ResponseSigner, refuse, tsig_size};
pub use tsig::{Tsig, tsig_at};
pub use verdict::TsigError;
