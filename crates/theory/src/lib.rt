// The model of tasks, and its laws: definitions in specs/, proofs in proofs/, and no code.
#![tactic(auto)]
