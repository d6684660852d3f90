// What is said of the import of a gel sheet. Cites `specs/Sheet.antt`.
//     taken_line     the line of a sheet that was taken
//     sheet_line     the line of a sheet, taken or refused
ghost use Rattle.std.specs.Prelude.{◌≡◌, []};
ghost use Rattle.answers.specs.Refusal.{sent_of};
ghost use Rattle.texts.specs.Text.{holding, with_bytes};
ghost use Rattle.report.specs.Sheet.{taken_line, sheet_line};

use crate::words::add_refused;
use answers::Answer;
use texts::{Text, add, add_decimal, empty};

// The line of a sheet that gave so many records, and has so many columns with a ?.
#[tactic(auto, using(texts::proofs::Laws::with_joined))]
fn taken_line(records: usize, unread: usize) -> Text
    ensures { result ≡ with_bytes (holding []) (taken_line records unread) }
{
    let counted = add_decimal(add(empty(), b"records "), records as u64);
    let told = add_decimal(add(counted, b", unread columns "), unread as u64);
    add(told, b"\n")
}

// What is said of a sheet by the answer to its import, with a line feed: the records and the columns with a ?, or the refusal.
#[tactic(auto, using(texts::proofs::Laws::with_joined))]
pub fn sheet_line(answer: Answer, unread: usize) -> Text
    ensures { result ≡ with_bytes (holding []) (sheet_line (sent_of answer) unread) }
{
    match answer {
        Err(refusal) => add_refused(empty(), refusal),
        Ok(records) => taken_line(records, unread),
    }
}
