// The kept table, and what can be asked of it whatever it holds. Nothing public has a `requires`, and each `ensures` is one equation to a
// definition of `specs/`. The crate `table` builds and rescores it, and passes on what the rules name.
//     Table, zero_table         one value with room for 128 rows, and the one that is all zero
//     is_fit                    every sentence of what a fit table is (RULES 6), as one test
//     place_of, leaf_set        where a cluster's row stands, and the union of the scored clusters
//     is_marked                 whether a row is among the members of another
//     COUNT_MAX, ..             the rules' limits that the crates above compare with too
#![tactic(auto)]

mod fields;
mod fitness;
mod limits;
mod marks;
mod results;
mod rows;
mod table;

pub use fitness::is_fit;
pub use limits::{COUNT_MAX, DEGREE_HIGH, DEGREE_LOW, ROW_CAP, WORD_ROWS};
pub use marks::is_marked;
pub use rows::{leaf_set, place_of};
pub use table::{Table, zero_table};
