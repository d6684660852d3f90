// A cluster as a set of taxa, bit b of its 64 being taxon b, and what can be asked of it. Each is total on every value, 0 included, and has
// no loop. Nothing public has a `requires`, and each `ensures` is one equation to a definition of `specs/Cluster.antt` of the crate `laws`.
// The crate `cluster` has the records of clusters, and passes these on.
//     is_inside, is_strict, is_apart     how two clusters lie to each other
//     size, is_single                    how many taxa a cluster has
//     highest, lowest                    its largest and its smallest taxon
#![tactic(auto)]

mod ends;
mod pairs;
mod sizes;

pub use ends::{highest, lowest};
pub use pairs::{is_apart, is_inside, is_strict};
pub use sizes::{is_single, size};
