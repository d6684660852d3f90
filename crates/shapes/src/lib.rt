// Trees as they are drawn. There is no function here: `specs/` says what the shape of a set of clusters is and how its text is written, and
// `proofs/` that a tree's shape has its members for clusters and that its text tells them, for every tree and every width.
#![tactic(auto)]
