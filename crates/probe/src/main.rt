// The probe: cases from the standard input, one after another until the input ends, and one answer for each on the standard output, by the
// format of docs/PROBE.md. A fault in the stream is answered by one line, and nothing after it is looked at. What an operation does is
// proved in its own crate; here is proved that the probe is safe and ends. The cases of `stdin`, in order:
//     1, 2      a record read, and one written into a longer room
//     3 to 9    the operations 3 to 9, on the house list (RULES 11)
//     10        that list as a gel sheet, with a column more that has a ?, imported into a longer room
//     11        a case that the input cuts off
#![tactic(auto)]

mod drawings;
mod layout;
mod records;
mod sheets;
mod stream;
mod tables;

use drawings::{answer_line, answer_text, answer_tree, answer_whole};
use records::{answer_read, answer_write};
use sheets::answer_sheet;
use stream::{read_array, write};
use tables::{answer_build, answer_fit, answer_rescore};

// What a case asks for.
#[derive(Clone, Copy)]
enum Operation {
    ReadRecord,
    WriteRecord,
    Build,
    Rescore,
    Fit,
    Tree,
    Text,
    Line,
    Whole,
    Sheet,
}

// No operation has this byte.
#[derive(Clone, Copy)]
struct Unknown;

// The operation that the first byte of a case names.
impl TryFrom<u8> for Operation {
    type Error = Unknown;

    fn try_from(byte: u8) -> Result<Operation, Unknown> {
        match byte {
            1 => Ok(Operation::ReadRecord),
            2 => Ok(Operation::WriteRecord),
            3 => Ok(Operation::Build),
            4 => Ok(Operation::Rescore),
            5 => Ok(Operation::Fit),
            6 => Ok(Operation::Tree),
            7 => Ok(Operation::Text),
            8 => Ok(Operation::Line),
            9 => Ok(Operation::Whole),
            10 => Ok(Operation::Sheet),
            _ => Err(Unknown),
        }
    }
}

// Answers a case that starts with the byte; `None` where it isn't whole or the byte names no operation.
fn answer_case(rt: &HostRuntime, byte: u8) -> Option<()> {
    match Operation::try_from(byte).ok()? {
        Operation::ReadRecord => answer_read(rt),
        Operation::WriteRecord => answer_write(rt),
        Operation::Build => answer_build(rt),
        Operation::Rescore => answer_rescore(rt),
        Operation::Fit => answer_fit(rt),
        Operation::Tree => answer_tree(rt),
        Operation::Text => answer_text(rt),
        Operation::Line => answer_line(rt),
        Operation::Whole => answer_whole(rt),
        Operation::Sheet => answer_sheet(rt),
    }
}

// Answers the next case; `None` where the input ends or has a fault, which is told.
fn answer_next(rt: &HostRuntime) -> Option<()> {
    let [byte] = read_array::<1>(rt)?;
    let answered = answer_case(rt, byte);
    if answered.is_none() {
        write(rt, b"malformed stream\n");
    }
    answered
}

fn main(rt: HostRuntime) {
    // a proved loop has to end, and nothing says that the input does: no run uses up so many turns
    for _ in 0..u64::MAX {
        if answer_next(&rt).is_none() {
            break;
        }
    }
}
