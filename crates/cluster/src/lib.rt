// Clusters and their records: the state of a record, its twelve bytes and its rules. Nothing public has a `requires`,
// and each `ensures` is one equation to a definition of `specs/`.
//     is_scored                                   a state
//     Record                                      a record
//     Rule, broken_rule, is_kept, is_score        the record rules
//     Reading, read_record, write_record          twelve bytes to a record, and back
//     RECORD_BYTES, WEIGHT_MAX, SCORED            how many bytes a record has, the largest weight, and the state of a scored cluster
// Passed on from the crate `taxa`:
//     is_inside, is_strict, is_apart, size, is_single, highest, lowest     a cluster as a set of taxa
#![tactic(auto)]

mod bytes;
mod reading;
mod record;
mod rule;
mod state;
mod writing;

pub use reading::{Reading, read_record};
pub use record::{RECORD_BYTES, Record};
pub use rule::{Rule, WEIGHT_MAX, broken_rule, is_kept, is_score};
pub use state::{SCORED, is_scored};
pub use taxa::{highest, is_apart, is_inside, is_single, is_strict, lowest, size};
pub use writing::write_record;
