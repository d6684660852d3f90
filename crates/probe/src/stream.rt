// The stream: its fields, filled from the standard input, and answers, written to the standard output (docs/PROBE.md). A `None` says that
// the stream ends before the field is whole, or that the field isn't allowed.
//     LIST_CAP, ROOM_CAP     the most bytes that a list can have, and a room of bytes
//     fill                   a room filled from the input
//     read_array             as many bytes as an array has
//     next                   as many of bytes that came as an array has
//     read_part              a count, then as many pieces of a size
//     write                  bytes, written
//     write_sent             how an operation ended, written as SENT
//     write_room             SENT and the bytes of a room, written
ghost use Rattle.std.specs.Prelude.{◌≡◌, ℕ, ◌*◌, ◌≤◌, length, IfSome};

use answers::{Answer, number_of, position_of};
use input::read_input;

// The most bytes that a list can have.
pub(crate) const LIST_CAP: usize = 4096;

// The most bytes that a room of bytes can have, but for the import of a gel sheet.
pub(crate) const ROOM_CAP: usize = 512;

// Fills `room` from the standard input.
pub(crate) fn fill(rt: &HostRuntime, room: &mut [u8]) -> Option<()> {
    let came = read_input(&mut rt.stdin(), room).count;
    (came == room.len()).then_some(())
}

// The next bytes of the standard input.
pub(crate) fn read_array<const N: usize>(rt: &HostRuntime) -> Option<[u8; N]> {
    let mut bytes = [0u8; N];
    fill(rt, &mut bytes)?;
    Some(bytes)
}

// The first of bytes that came, as many as the array has; the others stay.
pub(crate) fn next<const N: usize>(bytes: &mut &[u8]) -> Option<[u8; N]> {
    let (first, rest) = bytes.split_first_chunk()?;
    *bytes = rest;
    Some(*first)
}

// A count of two bytes, then as many pieces of `size` bytes each, put at the start of `room`: they are handed back. More of them than it has
// room for aren't allowed.
pub(crate) fn read_part<'a>(
    rt: &HostRuntime,
    room: &'a mut [u8],
    size: usize,
) -> Option<&'a mut [u8]>
    ensures { IfSome result (λ part. (length part.now ≤ length room.old) × ((count : ℕ) × (length part.now ≡ count * size))) }
{
    let count = usize::from(u16::from_le_bytes(read_array(rt)?));
    let part = room.get_mut(..count.checked_mul(size)?)?;
    fill(rt, part)?;
    Some(part)
}

// Where the output can't be written nothing is said: whoever reads it finds an answer missing.
pub(crate) fn write(rt: &HostRuntime, bytes: &[u8]) {
    let _ = rt.write_all(bytes);
}

// How an operation ended, written as SENT.
pub(crate) fn write_sent(rt: &HostRuntime, answer: Answer) {
    let (number, position, told) = match answer {
        Ok(told) => (0, 0, told),
        Err(refusal) => (number_of(refusal) as u8, position_of(refusal), 0),
    };
    write(rt, &[number]);
    write(rt, &(position as u64).to_le_bytes());
    write(rt, &(told as u64).to_le_bytes());
}

// How an operation ended, and its room afterwards.
pub(crate) fn write_room(rt: &HostRuntime, answer: Answer, room: &[u8]) {
    write_sent(rt, answer);
    write(rt, room);
}
