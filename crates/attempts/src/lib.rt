// How the till end tries its commands: laws over any list of events. Definitions and proofs alone; no code of its own.
#![tactic(auto)]
