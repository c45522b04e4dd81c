//! Octets written into a room of the caller's.
ghost use Rattle.std.specs.Prelude.{◌≡◌, ◌≤◌, length, min, take};
ghost use Rattle.call_handles.specs.Rooms.{StandsIn};

/// Writes octets at the beginning of the room, which has to take them, and leaves what is behind them.
pub fn write_front(octets: &[u8], buffer: &mut [u8])
    requires { length octets.now ≤ length buffer.old }
    ensures { StandsIn octets.now buffer.old buffer.new }
{
    let (front, _) = buffer.split_at_mut(octets.len());
    front.copy_from_slice(octets);
}

/// Writes as much of a text as the room takes, and gives how many octets that is.
pub fn write_cut(text: &[u8], buffer: &mut [u8]) -> usize
    ensures written { StandsIn (take result text.now) buffer.old buffer.new }
    ensures length { result ≡ min (length text.now) (length buffer.old) }
{
    let count = text.len().min(buffer.len());
    write_front(&text[..count], buffer);
    count
}
