// besttree: reads one list of cluster records from standard input, no more than 1,537 bytes, and prints a line for each of the degree
// bounds 3, 4 and 5. What a line says is promised by the crate `report`. Where the input can't be read or the output can't be written, a
// line on standard error says so, and the lines printed are those of the bytes that came.
#![tactic(auto)]

use input::read_input;
use report::{LINE_CAP, line};
use std::io;

// One byte more than the longest list, so that a longer one is seen.
const INPUT_CAP: usize = 1537;

// Prints the line of one degree bound.
fn print_line(to: &impl Print, list: &[u8], degree: u32) -> io::Result<()> {
    let mut room = [0u8; LINE_CAP];
    let Ok(size) = line(list, degree, &mut room) else {
        // no line is longer than the room
        unreachable!()
    };
    to.write_all(&room[..size])
}

// Prints the lines, up to the first that can't be written.
fn print_lines(to: &impl Print, list: &[u8]) -> io::Result<()> {
    for degree in 3..=5 {
        print_line(to, list, degree)?;
    }
    Ok(())
}

// Says a text; where that can't be written, nothing is left to be done.
// `gelsheet` has the same line of its own: a program hands nothing on, and a crate for one line is no plainer.
fn tell(to: &impl Print, text: &[u8]) {
    let _ = to.write_all(text);
}

fn main(rt: HostRuntime) {
    let mut buffer = [0u8; INPUT_CAP];
    let list = read_input(&mut rt.stdin(), &mut buffer);
    if !list.is_read {
        tell(&rt.stderr(), b"besttree: standard input can't be read\n");
    }
    if print_lines(&rt.stdout(), &buffer[..list.count]).is_err() {
        tell(
            &rt.stderr(),
            b"besttree: standard output can't be written\n",
        );
    }
}
