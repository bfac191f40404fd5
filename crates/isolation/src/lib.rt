// Snapshot isolation over the public calls: definitions and theorems, and no code.
#![tactic(auto)]
