// Demand 3: what a list of commands over a line that damages and cuts tries makes of a device. Definitions and proofs alone; no code of its own.
#![tactic(auto)]
