// The line that `besttree` prints for a list and a degree bound, and what is said of a gel sheet. Nothing public has a `requires`.
//     LINE_CAP       no line is longer
//     line           the line, into a room
//     sheet_line     what is said of the import of a gel sheet
#![tactic(auto)]

mod lines;
mod sheets;
mod words;

pub use lines::{LINE_CAP, line};
pub use sheets::sheet_line;
