// A gel sheet to a list of records: lines of 0, 1 and ?, a line for each taxon, whose columns are clusters. Nothing public has a
// `requires`, and its `ensures` is one equation to a definition of `specs/`.
//     Import           what importing a sheet gives: how many records, and how many columns have a ?
//     import_sheet     a sheet to the list of its clusters
//     unread_of        how many columns have a ?, also of a refused sheet
#![tactic(auto)]

mod columns;
mod importing;
mod lines;
mod tally;

pub use importing::{Import, import_sheet, unread_of};
