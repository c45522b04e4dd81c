//! Zones of files with those that they include, each export by one call of `file_calls`, and a zone as a file, by `text_calls`.
ghost use Rattle.std.specs.Prelude.{◌≡◌, None, Err, Ok};
ghost use Rattle.call_handles.specs.Rooms.{IsUntouched};
ghost use Rattle.included_texts.specs.Kept.{files_of, IsSame};
ghost use Rattle.file_calls.specs.Calls.{GivesName, KeepsFile, kept_in, wanted_in};
ghost use Rattle.file_calls.specs.Loading.{IsReported, IsWanting, LoadsHeld};
ghost use Rattle.file_calls.specs.Outcomes.{lack_of, Codes};
ghost use Rattle.zone_database.specs.Calls.{AsksHeld};
ghost use Rattle.zone_database.specs.Outcomes.{Codes as UsualCodes};
ghost use Rattle.text_calls.specs.Texts.{WritesNamed};

use file_calls::FilesHandle;
use std::alloc::Global;
use zone_database::DatabaseHandle;

/// Keeps the text of the file of a name, in place of what is kept of it.
#[unsafe(no_mangle)]
pub extern "C" fn nk_files_put(
    alloc: Global,
    files: &mut FilesHandle,
    name: &[u8],
    text: &[u8],
) -> u32
    ensures { Codes result (λ o.
        KeepsFile name.now (Ok text.now) files.old.held o files.new.held) }
{
    file_calls::put(alloc, files, name, text).code()
}

/// Keeps of the file of a name that it can't be read, and why, in place of what is kept of it.
#[unsafe(no_mangle)]
pub extern "C" fn nk_files_lack(
    alloc: Global,
    files: &mut FilesHandle,
    name: &[u8],
    why: u32,
) -> u32
    ensures { Codes result (λ o.
        KeepsFile name.now (Err (lack_of why)) files.old.held o files.new.held) }
{
    file_calls::lack(alloc, files, name, why).code()
}

/// Writes the next name of those that are wanted into the room, and takes it off them.
#[unsafe(no_mangle)]
pub extern "C" fn nk_files_next(
    alloc: Global,
    files: &mut FilesHandle,
    buffer: &mut [u8],
    written: &mut usize,
) -> u32
    ensures name { Codes result (λ o.
        GivesName (wanted_in files.old.held) o written.new buffer.old buffer.new
        (wanted_in files.new.held)) }
    ensures kept { IsSame (kept_in files.old.held) (kept_in files.new.held) }
{
    file_calls::next(alloc, files, buffer, written).code()
}

/// Gives the memory of what is kept of files back. Nothing is kept then.
#[unsafe(no_mangle)]
pub extern "C" fn nk_files_free(alloc: Global, files: &mut FilesHandle)
    ensures { files.new.held ≡ None }
{
    file_calls::free(alloc, files)
}

/// Puts the zone that a file makes, with those that it includes, in place of the one of its origin, or among the others, and writes what is
/// reported about the files into the room.
#[unsafe(no_mangle)]
pub extern "C" fn nk_zones_load_files(
    alloc: Global,
    zones: &mut DatabaseHandle,
    files: &mut FilesHandle,
    origin: &[u8],
    file: &[u8],
    text: &[u8],
    buffer: &mut [u8],
    written: &mut usize,
) -> u32
    ensures loaded { Codes result (λ o.
        LoadsHeld (files_of file.now text.now (kept_in files.old.held)) origin.now file.now
        zones.old.held o zones.new.held
        × IsWanting o (wanted_in files.new.held)
        × IsReported o written.new buffer.old buffer.new) }
    ensures kept { IsSame (kept_in files.old.held) (kept_in files.new.held) }
{
    file_calls::load(alloc, zones, files, origin, file, text, buffer, written).code()
}

/// Writes the zone of an origin as a zone file into the room.
#[unsafe(no_mangle)]
pub extern "C" fn nk_zones_write(
    alloc: Global,
    zones: &mut DatabaseHandle,
    origin: &[u8],
    buffer: &mut [u8],
    written: &mut usize,
) -> u32
    ensures text { UsualCodes result (λ o. AsksHeld
        (λ zs e. WritesNamed origin.now zs e written.new buffer.old buffer.new)
        (IsUntouched written.new buffer.old buffer.new) zones.old.held o) }
    ensures same { zones.new.held ≡ zones.old.held }
{
    text_calls::write_zone(alloc, zones, origin, buffer, written).code()
}
