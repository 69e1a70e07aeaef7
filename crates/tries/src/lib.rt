// How the tries of a frame arrive over a line that damages and cuts them, and what is read of each: commands and answers alike. Definitions
// and proofs alone; no code of its own.
#![tactic(auto)]
