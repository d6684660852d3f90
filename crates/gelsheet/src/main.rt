// gelsheet: reads one gel sheet from standard input, no more than 4,129 bytes, says on standard error what came of it, and writes the list
// that is made of it to standard output; of a refused sheet nothing is written there. What is said is promised by the crate `report`, and
// the list by `gel`. Where the input can't be read or the output can't be written, a line on standard error says so, and what is made of
// the sheet goes by the bytes that came.
#![tactic(auto)]

use answers::Refusal;
use cluster::RECORD_BYTES;
use gel::{Import, import_sheet, unread_of};
use input::read_input;
use report::sheet_line;
use std::io;
use texts::Text;

// One byte more than the longest sheet, so that a longer one is seen.
const INPUT_CAP: usize = 4129;

// The bytes of the longest list.
const LIST_CAP: usize = 1536;

// Says a text; where that can't be written, nothing is left to be done.
// `besttree` has the same line of its own: a program hands nothing on, and a crate for one line is no plainer.
fn tell(to: &impl Print, text: &[u8]) {
    let _ = to.write_all(text);
}

// Says what came of a sheet.
fn tell_import(to: &impl Print, import: Result<Import, Refusal>) {
    let Text { bytes, size } = sheet_line(import.map(|import| import.records), unread_of(import));
    tell(to, &bytes[..size]);
}

// Says what came of a sheet to `said`, and writes the list that is made of it to `made`.
fn write_list(said: &impl Print, made: &impl Print, sheet: &[u8]) -> io::Result<()> {
    let mut room = [0u8; LIST_CAP];
    let import = import_sheet(sheet, &mut room);
    tell_import(said, import);
    match import {
        Ok(import) => made.write_all(&room[..import.records * RECORD_BYTES]),
        Err(_) => Ok(()),
    }
}

fn main(rt: HostRuntime) {
    let mut buffer = [0u8; INPUT_CAP];
    let sheet = read_input(&mut rt.stdin(), &mut buffer);
    if !sheet.is_read {
        tell(&rt.stderr(), b"gelsheet: standard input can't be read\n");
    }
    if write_list(&rt.stderr(), &rt.stdout(), &buffer[..sheet.count]).is_err() {
        tell(
            &rt.stderr(),
            b"gelsheet: standard output can't be written\n",
        );
    }
}
