// The tree of a table as a list of clusters and as Newick text. Nothing public has a `requires`, and each `ensures` is one equation to a
// definition of `specs/`.
//     tree                       the clusters of the tree that the leaf set's row marks, ascending, into a room of numbers
//     text                       its Newick text, into a room of bytes
//     DrawnText, drawn_text      the same text by value, with the leaf set's row
#![tactic(auto)]

mod drawing;
mod writing;

pub use drawing::{DrawnText, drawn_text, text, tree};
