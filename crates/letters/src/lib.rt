// Texts that a reader can read, for definitions. Definitions alone; no code of its own.
#![tactic(auto)]
