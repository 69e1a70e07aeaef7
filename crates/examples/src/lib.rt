// The examples that are proved, each beside the paragraph of PROTOCOL that it shows. A table and its proof alone; no code of its own.
#![tactic(auto)]
