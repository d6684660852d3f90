// Sets of clusters: whether one is a tree, and the one that is drawn of a table. Nothing public has a `requires`, and each `ensures` is one
// equation to a definition of `specs/`.
//     is_tree               whether a set of clusters is a tree on one of them
//     Drawn, drawn_tree     what is drawn of a table: the leaf set's row, its members ascending and how many
#![tactic(auto)]

mod draw;
mod marks;
mod nesting;

pub use draw::{Drawn, drawn_tree};
pub use nesting::is_tree;
