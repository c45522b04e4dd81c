//! Why a zone file isn't read, as those who read one are told.
ghost use Rattle.std.specs.Prelude.{◌≡◌};

use record_fields::Reason;
use std::alloc::{AllocError, AllocFailed};
use std::io::ErrorKind;
use zone_proto::Seq;
use zone_scanner::{EntryError, Place};

/// The first fault of a zone file.
#[derive(Debug, Drop)]
pub struct ZoneFault {
    /// Where it stands.
    pub place: Place,
    /// What is wrong.
    pub reason: Reason,
    /// The octets of the word that begins there, as they are in the text, without its quotes; none if the text can't be
    /// cut into words.
    pub word: Option<Seq<u8>>,
}

/// Why the text of a zone file isn't read.
#[derive(Debug, Drop)]
pub enum ZoneError {
    /// A growth that the allocator refused.
    Memory,
    /// The first fault of the text.
    Fault(ZoneFault),
}

/// Want of memory is `Memory`.
impl From<AllocError> for ZoneError {
    ghost use Rattle.zone_file.specs.declared.error.ZoneError.TheVariants.{Memory};

    ghost from_gives = { λ _ e. e ≡ Memory };

    fn from(_: AllocError) -> ZoneError {
        ZoneError::Memory
    }
}

/// Want of memory is `Memory`; the value that found no room is dropped.
impl<T: Drop> From<AllocFailed<T>> for ZoneError {
    ghost use Rattle.zone_file.specs.declared.error.ZoneError.TheVariants.{Memory};

    ghost from_gives = { λ _ e. e ≡ Memory };

    fn from(_: AllocFailed<T>) -> ZoneError {
        ZoneError::Memory
    }
}

/// What is wrong with the text's entries is wrong with the zone file.
impl From<EntryError> for ZoneError {
    ghost use Rattle.zone_file.specs.Faults.{error_of};

    ghost from_gives = { λ entries e. e ≡ error_of entries };

    fn from(error: EntryError) -> ZoneError {
        match error {
            EntryError::Memory => ZoneError::Memory,
            EntryError::Fault(fault) => ZoneError::Fault(ZoneFault {
                place: fault.place,
                reason: Reason::Entry(fault.reason),
                word: None,
            }),
        }
    }
}

/// Why a zone file isn't read from an input.
#[derive(Debug, Drop)]
pub enum InputError {
    /// A growth that the allocator refused.
    Memory,
    /// The input failed, in this way.
    Input(ErrorKind),
    /// The first fault of the text.
    Fault(ZoneFault),
}

/// Want of memory is `Memory`.
impl From<AllocError> for InputError {
    ghost use Rattle.zone_file.specs.declared.error.InputError.TheVariants.{Memory};

    ghost from_gives = { λ _ e. e ≡ Memory };

    fn from(_: AllocError) -> InputError {
        InputError::Memory
    }
}

/// What is wrong with the text is wrong with the input.
impl From<ZoneError> for InputError {
    ghost use Rattle.zone_file.specs.Faults.{input_error_of};

    ghost from_gives = { λ error e. e ≡ input_error_of error };

    fn from(error: ZoneError) -> InputError {
        match error {
            ZoneError::Memory => InputError::Memory,
            ZoneError::Fault(fault) => InputError::Fault(fault),
        }
    }
}
