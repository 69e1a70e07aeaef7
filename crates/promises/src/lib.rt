// The customer's three demands as theorems over the definitions that the code is proved to meet: read `specs/`, then the statements in
// `proofs/Demand1.antt`, `Demand2.antt` and `Demand3.antt`.
#![tactic(auto)]
