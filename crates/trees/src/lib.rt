// The mathematics of trees and tables. There is no function here: `specs/` says what a tree, a tuple, the first heaviest tree and a
// row of the table are, and `proofs/` that the row worked out from tuples is the row defined by trees, for every degree, width and limit.
#![tactic(auto)]
