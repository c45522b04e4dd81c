//! What a response that is signed by TSIG (RFC 8945) would need.
/// What it takes to sign the response to a signed request (TSIG, RFC 8945): nothing, since no response is signed.
#[derive(Clone, Copy, Debug)]
pub struct TSigResponseContext {}
