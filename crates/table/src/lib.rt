// The table of a list of clusters: built, tested for fitness, and rescored one cluster at a time. Nothing public has a `requires`, and each
// `ensures` is one equation to a definition of `specs/`.
//     Built, build              a list of records and a degree bound to a table
//     Rescored, rescore         one row with a new weight and state, and every row that contains it worked out again
// Passed on from the crate `kept`:
//     Table, zero_table         one value with room for 128 rows, and the one that is all zero
//     is_fit                    every sentence of what a fit table is (RULES 6), as one test
//     place_of, leaf_set        where a cluster's row stands, and the union of the scored clusters
#![tactic(auto)]

mod making;
mod rescoring;
mod searching;
mod tally;
mod working;

pub use kept::{Table, is_fit, leaf_set, place_of, zero_table};
pub use making::{Built, build};
pub use rescoring::{Rescored, rescore};
