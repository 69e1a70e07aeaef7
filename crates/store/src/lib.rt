// What commands work on, as one record. Definitions alone; no code of its own.
#![tactic(auto)]
