// Bytes put into a room. Cites `specs/Outcome.antt` of the crate `answers`.
//     put     bytes at the start of a room
ghost use Rattle.std.specs.Prelude.{◌≡◌, []};
ghost use Rattle.answers.specs.Outcome.{outcome_of, written};

use answers::{Answer, Refusal};

// Bytes at the start of a room; the answer tells how many. Refused 11 where the room is shorter, which is then left as it was.
pub fn put(bytes: &[u8], room: &mut [u8]) -> Answer
    ensures { outcome_of result room.new ≡ written [] bytes.now room.old }
{
    if room.len() < bytes.len() {
        return Err(Refusal::NoRoom);
    }
    room[..bytes.len()].copy_from_slice(bytes);
    Ok(bytes.len())
}
