// The history: what the books say is what all commands carried out so far come to. Definitions and proofs alone; no code of its own.
#![tactic(auto)]
