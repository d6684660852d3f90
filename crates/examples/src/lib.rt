// The bench examples P1 to P11 (RULES 11). There is no function here: `specs/` has them as one table and says what it is that an example is
// right, and `proofs/` that each of them is.
#![tactic(auto)]
