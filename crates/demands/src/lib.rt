// The three demands, from bytes to bytes. There is no function here: `specs/Demands.antt` says what is demanded of the operations, by the
// definitions that their promises cite, and `proofs/` shows it.
#![tactic(auto)]
