// What commands tried, and what the guard comes to by them. Definitions and laws alone; no code of its own.
#![tactic(auto)]
