// The line of a list and a degree bound. Cites `specs/Line.antt`.
//     table_line     the line of a table
//     line_of        the line of a list
//     line           the line, into a room
ghost use Rattle.std.specs.Prelude.{◌≡◌, []};
ghost use Rattle.answers.specs.Outcome.{outcome_of};
ghost use Rattle.texts.specs.Text.{holding, with_bytes};
ghost use Rattle.report.specs.Line.{table_line, line_of, line_into};

use crate::words::{refused_line, tree_line};
use answers::Answer;
use drawing::drawn_text;
use kept::Table;
use table::build;
use texts::{Text, put};

// The longest line there can be.
pub const LINE_CAP: usize = 172;

// The line of a table.
#[tactic(auto, using(drawing::proofs::Laws::Draw::drawn_text_row, drawing::proofs::Laws::Draw::drawn_text_fits))]
fn table_line(degree: u32, t: Table) -> Text
    ensures { result ≡ with_bytes (holding []) (table_line degree t) }
{
    match drawn_text(t) {
        Err(refusal) => refused_line(degree, refusal),
        Ok(drawn) => {
            let row = drawn.row;
            let text = &drawn.text.bytes[..drawn.text.size];
            tree_line(degree, t.counts[row], t.marks[row], t.bests[row], text)
        }
    }
}

// The line of a list.
fn line_of(list: &[u8], degree: u32) -> Text
    ensures { result ≡ with_bytes (holding []) (line_of list.now degree) }
{
    let built = build(list, degree);
    match built.answer {
        Err(refusal) => refused_line(degree, refusal),
        Ok(_) => table_line(degree, built.table),
    }
}

// The line that the program prints for a list and a degree bound, with its line feed. Refused 11 where the room is shorter, and only then;
// the room is then left as it was.
#[tactic(auto, using(texts::proofs::Laws::begun_fits))]
pub fn line(list: &[u8], degree: u32, room: &mut [u8]) -> Answer
    ensures { outcome_of result room.new ≡ line_into list.now degree room.old }
{
    let text = line_of(list, degree);
    put(&text.bytes[..text.size], room)
}
