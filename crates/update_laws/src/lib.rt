//! What holds of the zones that are served after updates of signed zones (RFC 2136, RFC 4035, RFC 5155): their responses prove what they
//! say.
#![tactic(auto)]

pub mod laws;
