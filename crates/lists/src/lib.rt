// Lists of records: read, put in order, and refused. Nothing public has a `requires`, and each `ensures` is one equation to a definition of
// `specs/`.
//     Listing        what reading a list gives: the rows in ascending order
//     read_list      a list of records to its rows
//     check_list     why a list is refused, and nothing more
#![tactic(auto)]

mod listing;
mod order;
mod records;

pub use listing::{Listing, check_list, read_list};
