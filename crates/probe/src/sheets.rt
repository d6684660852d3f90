// The operation on gel sheets. It reads its case and writes the answer; where the case isn't whole it gives `None`, and has written nothing.
//     answer_sheet     operation 10, import a gel sheet
use crate::stream::{read_part, write, write_sent};
use gel::{import_sheet, unread_of};

// The most bytes that a sheet can have.
const SHEET_CAP: usize = 8192;

// The most bytes that its room can have: more than those of the other operations.
const MADE_CAP: usize = 2048;

pub(crate) fn answer_sheet(rt: &HostRuntime) -> Option<()> {
    let mut sheet_bytes = [0u8; SHEET_CAP];
    let sheet = read_part(rt, &mut sheet_bytes, 1)?;
    let mut room_bytes = [0u8; MADE_CAP];
    let room = read_part(rt, &mut room_bytes, 1)?;
    let import = import_sheet(sheet, room);
    write_sent(rt, import.map(|import| import.records));
    write(rt, &(unread_of(import) as u64).to_le_bytes());
    write(rt, room);
    Some(())
}
