//! Rooms of a caller, which are filled as far as something fits.

ghost use Rattle.std.specs.Prelude.{◌≡◌, length};
ghost use Rattle.lineup_c.specs.Rooms.{filled};

/// Puts the text into the front of the room, as much of it as fits, and returns its whole length.
pub(crate) fn fill(room: &mut [u8], text: &[u8]) -> usize
    ensures filled { room.new ≡ filled text.now room.old }
    ensures whole { result ≡ length text.now }
{
    let fits = room.len().min(text.len());
    room[..fits].copy_from_slice(&text[..fits]);
    text.len()
}

/// Puts the numbers into the front of the room, as many as fit, and returns how many they are.
pub(crate) fn fill_numbers(room: &mut [u32], numbers: &[u32]) -> usize
    ensures filled { room.new ≡ filled numbers.now room.old }
    ensures whole { result ≡ length numbers.now }
{
    let fits = room.len().min(numbers.len());
    room[..fits].copy_from_slice(&numbers[..fits]);
    numbers.len()
}
