// Laws that the kit's library lacks: clusters as bits of a number, lists, integers. There is no function here; the definitions
// are in `specs/` and what is true of them in `proofs/`, for the crates above to cite.
#![tactic(auto)]
