//! Laws of the definitions that the calls of this crate are proved to meet. Each is an empty function whose contract is the law, for
//! every value, so a program has no need to call one.
ghost use Rattle.update_calls.specs.Laws.{ChangesAreTold};

/// Whoever asks for an update is told whether a zone changed. Where one did, the response is in the room, and the rules of the zone permit the
/// owner of the key by which the message was signed each change; a response that finds no room leaves each zone as it was.
pub fn changes_are_told()
    ensures { ChangesAreTold }
{}
