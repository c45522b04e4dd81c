//! Laws of the definitions that the calls of this crate are proved to meet. Each is an empty function whose contract is the law, for
//! every value, so a program has no need to call one.
ghost use Rattle.held_transfers.specs.Laws.{TransfersAreGranted};

/// The messages of a zone begin only where a grant lets anybody have it, or those who have a key; and then the request was found signed under
/// this key: its MAC is right and whole, and the moment is within its fudge (RFC 8945 section 5.2).
pub fn transfers_are_granted()
    ensures { TransfersAreGranted }
{}
