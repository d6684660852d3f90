// Reading an input. Cites `specs/Counts.antt`.
//     Input          how many bytes came, and whether the input could be read
//     read_input     reads joined
ghost use Rattle.input.specs.Counts.{IsPrefixLen};

use std::io::Read;

// How many bytes came, and whether the input could be read. It is no `Result`, since what came before a failed read counts.
#[derive(Clone, Copy)]
pub struct Input {
    pub count: usize,
    pub is_read: bool,
}

// The input, put at the start of `room`: reads are joined until the room is full, the input ends or a read fails.
pub fn read_input<R: Read>(reader: &mut R, room: &mut [u8]) -> Input
    ensures { IsPrefixLen result.count room.new }
{
    let mut end = 0;
    while end < room.len() {
        match reader.read(&mut room[end..]) {
            Ok(0) => break,
            Ok(count) => end += count,
            Err(_) => {
                return Input {
                    count: end,
                    is_read: false,
                };
            }
        }
    }
    Input {
        count: end,
        is_read: true,
    }
}
