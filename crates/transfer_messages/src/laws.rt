//! Laws of the definitions that the calls of this crate are proved to meet. Each is an empty function whose contract is the law, for
//! every value, so a program has no need to call one.
ghost use Rattle.transfer_messages.specs.TransferLaws.{ZonesGoToTheirKeys};

/// The messages of a zone begin only where its policy lets anybody have it, or where it asks for a signature and the request was found
/// signed under a key that may have the zone: `open` says of such a request that it is authentic.
#[tactic(auto, using(crate::proofs::KeysAsked::zones_go_to_their_keys))]
pub fn zones_go_to_their_keys()
    ensures { ZonesGoToTheirKeys }
{}
